use lossy_queue::Rates;

/// The numbers of the commands that make frames.
#[derive(Drop)]
pub(crate) struct Numbers {
    pub seed: u64,
    pub frames: u32,
    pub rates: Rates,
}
