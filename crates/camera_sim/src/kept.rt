/// The latest executed register or memory command of the primary. Its bytes and its acknowledge lie in
/// the camera.
#[derive(Clone, Copy, PartialEq, Eq)]
pub(crate) struct Kept {
    /// How many bytes it has.
    pub len: usize,
    /// Its request number.
    pub req: u16,
    /// How many bytes its acknowledge has, where one was asked for.
    pub ack: Option<usize>,
}
