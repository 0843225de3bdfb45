/// A number alone is known to the analysis where it is below this.
pub const SMALL_NUMBERS: u32 = 256;
