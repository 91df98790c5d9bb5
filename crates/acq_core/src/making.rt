//! A receiver that heard nothing yet, with all the memory that it will use.

ghost use Rattle.std.specs.Prelude.{◌≡◌, ◌≤◌, [], IfOk, false};
ghost use Rattle.std.specs.List.{AllByRecursion};
ghost use Rattle.std.specs.Vec.{vec_len, vec_capacity};
ghost use Rattle.acquisition_machine.specs.Runs.{first_state};
ghost use Rattle.acq_core.specs.Standing.{IsWide, IsConfig, Acts, HasRoom};

use crate::slot::Spare;
use crate::window::Window;
use acquisition_machine::{AcqConfig, Counts};
use block_assembly::PACKET_IDS;
use gev_types::NoMemory;
use packet_bitmap::Bitmap;
use std::alloc::Global;

/// The bitmaps of one block.
fn pair(alloc: Global) -> Result<Spare, NoMemory>
    ensures { IfOk result IsWide }
{
    Ok(Spare {
        kept: Bitmap::new(alloc, PACKET_IDS)?,
        refused: Bitmap::new(alloc, PACKET_IDS)?,
    })
}

/// The bitmaps of so many blocks.
fn pairs(alloc: Global, window: u8) -> Result<Vec<Spare>, NoMemory>
    ensures count { IfOk result (λ v. vec_len v ≡ window) }
    ensures wide { IfOk result (λ v. AllByRecursion IsWide v.items) }
    ensures room { IfOk result (λ v. window ≤ vec_capacity v) }
{
    let mut spare = Vec::with_capacity(alloc, usize::from(window))?;
    for _block in 0..window {
        spare.push_reserved(pair(alloc)?);
    }
    Ok(spare)
}

/// The first state: no block is open, and the first may be block 1.
pub(crate) fn first_window(alloc: Global, config: AcqConfig) -> Result<Window, NoMemory>
    requires { IsConfig config }
    ensures config { IfOk result (λ m. m.config ≡ config) }
    ensures acts { IfOk result (λ m. Acts m first_state) }
    ensures room { IfOk result HasRoom }
    ensures fills { IfOk result (λ m. m.fills.items ≡ []) }
    ensures ends { IfOk result (λ m. m.ends.items ≡ []) }
    ensures telling { IfOk result (λ m. m.telling ≡ false) }
    ensures requests { IfOk result (λ m. m.requests.items ≡ []) }
{
    let window = usize::from(config.window);
    Ok(Window {
        config,
        moment: 0,
        floor: Some(1),
        slots: Vec::with_capacity(alloc, window)?,
        asked: None,
        counts: Counts::default(),
        number: 1,
        spare: pairs(alloc, config.window)?,
        fills: Vec::with_capacity(alloc, window + 1)?,
        telling: false,
        ends: Vec::with_capacity(alloc, window)?,
        requests: Vec::with_capacity(alloc, 8 * window)?,
    })
}
