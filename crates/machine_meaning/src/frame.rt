/// A caller that waits: the address at which it goes on, its locals and entry values, and the
/// number of the signal that answers it.
#[derive(Clone, Copy)]
pub struct Frame {
    pub back: usize,
    pub locals: [u32; 50],
    pub given: [u32; 8],
    pub awaits: u32,
}
