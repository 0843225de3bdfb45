/// The forms of the text. The first has no number of references, and tells certificates with none.
#[derive(Clone, Copy)]
pub enum Version {
    One,
    Two,
}
