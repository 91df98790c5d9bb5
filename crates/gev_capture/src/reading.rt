//! The next record of a capture, from a source.

ghost use Rattle.std.specs.Prelude.{◌≡◌, ◌≢◌, ◌≤◌, ◌<◌, ◌⊎◌, ℕ, List, [], length, Err};
ghost use Rattle.gev_capture.specs.declared.form.SectionInterface.{SectionInterface as SectionInterfaceOf};
ghost use Rattle.gev_links.specs.Faults.{Rose};
ghost use Rattle.gev_links.specs.Told.{IsSpent};
ghost use Rattle.gev_script.specs.Window.{Holds};
ghost use Rattle.gev_capture.specs.Files.{told};
ghost use Rattle.gev_capture.specs.Captures.{may_begin};
ghost use Rattle.gev_capture.specs.Steps.{format_of, HasParts, HaveParts};
ghost use Rattle.gev_capture.specs.Reading.{Finds, EndsAtSpent};

use crate::capture_end::CaptureEnd;
use crate::form::{Form, SectionInterface};
use crate::kind::CaptureKind;
use crate::room::Room;
use crate::step::{Found, Step};
use crate::telling::next_step;
use gev_links::{Failed, Source};

/// Whether a further record could begin.
fn may_begin(form: Form) -> bool
    ensures { (interfaces : List SectionInterfaceOf) → result ≡ may_begin (format_of form interfaces) }
{
    match form {
        Form::Fresh => false,
        Form::Classic { .. } => true,
        Form::Section { .. } => true,
    }
}

/// How a capture ends of which these bytes are left and no more come.
fn end_of(form: Form, held: &[u8]) -> CaptureEnd
    ensures { (interfaces : List SectionInterfaceOf) → EndsAtSpent result (format_of form interfaces) held.now }
{
    if held.is_empty() && may_begin(form) {
        CaptureEnd::Ended
    } else {
        CaptureEnd::Refused(CaptureKind::Cut)
    }
}

/// Finds the next record behind those that gave this form and these interfaces, and reads only while the
/// bytes that are held tell of none. The record's bytes stay in the room, at its front.
pub fn find_record<S: Source>(
    room: &mut Room,
    source: &mut S,
    form: Form,
    interfaces: &[SectionInterface],
) -> Result<Found, CaptureEnd>
    requires few { length room.old ≤ 1114112 }
    requires form { HasParts form }
    requires interfaces { HaveParts interfaces.now }
    ensures finds { Finds result (format_of form interfaces.now) interfaces.now room.old room.new (S.left source.old) (S.left source.new) (S.faults source.old) (S.faults source.new) }
    ensures steady { result ≢ Err CaptureEnd.ReadFault → S.faults source.new ≡ S.faults source.old }
    ensures never_falls { S.faults source.old ≤ S.faults source.new }
    ensures few { length room.new ≤ 1114112 }
{
    'reading: loop {
        match next_step(form, interfaces, room.held()) {
            Step::Record(found) => return Ok(found),
            Step::Refused(kind) => return Err(CaptureEnd::Refused(kind)),
            Step::Wants(_) => {}
        }
        match room.read_more(source) {
            Ok(0) => return Err(end_of(form, room.held())),
            Ok(_) => {}
            Err(Failed) => return Err(CaptureEnd::ReadFault),
        }
    }
}
