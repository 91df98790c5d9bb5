/// When in a run a register of the camera is written.
#[derive(Clone, Copy, Debug, Default, PartialEq, Eq)]
pub enum Stage {
    /// Before the stream's channel is opened.
    #[default]
    Set,
    /// Once it's open.
    Start,
    /// At the run's end.
    Stop,
}

/// A register of a camera that is to be written.
#[derive(Clone, Copy, Debug, Default, PartialEq, Eq)]
pub struct RegisterWrite {
    /// When it's written.
    pub stage: Stage,
    /// Its address, a multiple of 4, and none of the registers that the program writes by itself.
    pub register: u32,
    /// What is written.
    pub value: u32,
}
