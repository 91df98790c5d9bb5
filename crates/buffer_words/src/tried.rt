/// How a call that makes one try ended.
#[derive(Drop)]
pub enum Tried<T> {
    /// The act was done, with this answer.
    Did(T),
    /// The word was another one at the exchange than at the load: nothing was done.
    Lost {
        /// The word's number at the load.
        loaded: u64,
        /// The word's number at the exchange.
        found: u64,
    },
}
