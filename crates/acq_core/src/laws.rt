//! What the definitions promise: the function here does nothing, and its contract is a law.

ghost use Rattle.acq_core.specs.Receiver.{ReceiversShowTheirInputs};

/// The buffers of open blocks, the number of open blocks and the block for which a buffer is asked are
/// what the receiver's inputs leave.
pub fn receivers_show_their_inputs()
    ensures { ReceiversShowTheirInputs }
{}
