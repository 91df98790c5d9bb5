//! The receivers of a reader's turns.

ghost use Rattle.std.specs.Prelude.{◌≡◌, [], IfOk};
ghost use Rattle.acq_core.specs.Receiver.{buffers};
ghost use Rattle.acq_core.specs.Waiting.{waiting_fills, waiting_requests};

use acq_core::{Acq, AcqConfig};
use gev_types::NoMemory;
use std::alloc::Global;

/// A window of one block. Payloads have 528 bytes at most; a block that got no new packet for 100 ms asks for the missing
/// ones once, and retires after 1000 ms.
pub const NARROW: AcqConfig = AcqConfig {
    p: 528,
    window: 1,
    timeout: 1000,
    age: 100,
    rounds: 1,
};

/// The same with a window of two blocks.
pub const WIDE: AcqConfig = AcqConfig {
    p: 528,
    window: 2,
    timeout: 1000,
    age: 100,
    rounds: 1,
};

/// A receiver with a window of one block, or of two.
pub fn new_receiver(alloc: Global, is_wide: bool) -> Result<Acq, NoMemory>
    ensures fills { IfOk result (λ acq. waiting_fills acq ≡ []) }
    ensures requests { IfOk result (λ acq. waiting_requests acq ≡ []) }
    ensures buffers { IfOk result (λ acq. buffers acq ≡ []) }
{
    if is_wide {
        Acq::new(alloc, WIDE)
    } else {
        Acq::new(alloc, NARROW)
    }
}
