/// One load or store of a job: the word, and the value that was found or put there.
#[derive(Clone, Copy, PartialEq, Eq)]
pub enum Touch {
    Load(u32, u32),
    Store(u32, u32),
}
