use camera_sim::Camera;

/// What a camera script runs on behind its header.
#[derive(Drop)]
pub struct Running {
    pub(crate) camera: Camera,
    /// The moment that stands, in milliseconds.
    pub(crate) moment: u64,
}
