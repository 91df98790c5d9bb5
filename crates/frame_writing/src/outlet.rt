use crate::input_watch::InputWatch;
use crate::progress::Progress;
use camera_words::Output;

/// What is wanted of a camera's frames, and what else ends the run.
#[derive(Drop)]
pub struct Outlet<C: Drop, T: Drop> {
    /// How many buffers are to be handed out.
    pub frames: u32,
    /// What is written of each.
    pub output: Output,
    /// The application's clock.
    pub clock: C,
    /// When an input is looked at whose end ends the run.
    pub watch: InputWatch<T>,
    /// The lines that tell how the run goes, by the clock of these looks.
    pub progress: Progress,
}
