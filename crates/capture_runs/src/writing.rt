//! Text on its way to a sink.

ghost use Rattle.std.specs.Prelude.{◌≡◌, ◌≢◌, ◌++◌, Err, OnOk, OnErr};
ghost use Rattle.gev_links.specs.Faults.{Rose};
ghost use Rattle.gev_links.specs.Told.{WritesFront};
ghost use Rattle.capture_runs.specs.Turns.{Drains, Finishes, rest_text};

use crate::stop::Stop;
use crate::telling::Telling;
use gev_capture::CaptureEnd;
use gev_links::{Failed, Sink, write_all};
use gev_types::NoMemory;

/// How many bytes of text are held back before they are written.
const HELD_BACK: usize = 65_536;

/// Writes the text that is held back, once it's long.
pub(crate) fn write_if_long<K: Sink>(sink: &mut K, out: &mut Vec<u8>) -> Result<(), Failed>
    ensures drained { OnOk result (Drains (K.written sink.old) (K.written sink.new) out.old.items out.new.items) }
    ensures no_fault { OnOk result (K.faults sink.new ≡ K.faults sink.old) }
    ensures front { OnErr result (WritesFront (K.written sink.old) (K.written sink.new) out.old.items) }
    ensures failed { OnErr result (Rose (K.faults sink.old) (K.faults sink.new)) }
{
    if out.len() < HELD_BACK {
        return Ok(());
    }
    write_all(sink, out.as_slice())?;
    out.clear();
    Ok(())
}

/// Adds what is still to be written where the capture ends so.
fn add_rest<T: Telling>(end: CaptureEnd, telling: &mut T, out: &mut Vec<u8>) -> Result<(), NoMemory>
    ensures { OnOk result ((p : T.Plain) → T.stands_for telling.old p → out.new.items ≡ out.old.items ++ rest_text T.texts p end) }
{
    telling.finish(out)?;
    match end {
        CaptureEnd::Ended => telling.close(out),
        CaptureEnd::Refused(_) => telling.close(out),
        CaptureEnd::ReadFault => Ok(()),
    }
}

/// Writes the text that is held back, and what is still to be written where the capture ends so.
pub(crate) fn write_rest<K: Sink, T: Telling>(
    end: CaptureEnd,
    sink: &mut K,
    telling: &mut T,
    out: &mut Vec<u8>,
) -> Result<(), Stop>
    ensures written { (p : T.Plain) → T.stands_for telling.old p
        → Finishes result (out.old.items ++ rest_text T.texts p end) (K.written sink.old) (K.written sink.new) }
    ensures no_fault { result ≢ Err Stop.WriteFault → K.faults sink.new ≡ K.faults sink.old }
    ensures failed { result ≡ Err Stop.WriteFault → Rose (K.faults sink.old) (K.faults sink.new) }
    ensures unwritten { result ≡ Err Stop.NoMemory → K.written sink.new ≡ K.written sink.old }
{
    match add_rest(end, telling, out) {
        Ok(()) => {}
        Err(NoMemory) => return Err(Stop::NoMemory),
    }
    match write_all(sink, out.as_slice()) {
        Ok(()) => Ok(()),
        Err(Failed) => Err(Stop::WriteFault),
    }
}
