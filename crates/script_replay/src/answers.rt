//! The report's line for what a call was answered.

ghost use Rattle.std.specs.Prelude.{◌≡◌, ◌++◌, [], OnOk};
ghost use Rattle.script_trace.specs.Answers.{refused_text, done_text, answer_text, id_text, value_text};

use gentl_types::{BufferId, GcError};
use gev_report::{line_id, line_result, line_value};
use gev_types::NoMemory;
use std::alloc::Global;

/// Adds the line of a call that was done.
pub fn line_done(alloc: Global, word: &str, out: &mut Vec<u8>) -> Result<(), NoMemory>
    requires empty { out.old.items ≡ [] }
    ensures { OnOk result (out.new.items ≡ done_text word.now) }
{
    line_result(alloc, word, Ok(()), out)
}

/// Adds the line of a call that was refused.
pub fn line_refused(
    alloc: Global,
    word: &str,
    error: GcError,
    out: &mut Vec<u8>,
) -> Result<(), NoMemory>
    requires empty { out.old.items ≡ [] }
    ensures { OnOk result (out.new.items ≡ refused_text word.now error) }
{
    line_result(alloc, word, Err(error.code()), out)
}

/// Adds the line of a call that answers nothing but that it was done.
pub(crate) fn line_answer(
    alloc: Global,
    word: &str,
    answer: Result<(), GcError>,
    out: &mut Vec<u8>,
) -> Result<(), NoMemory>
    requires empty { out.old.items ≡ [] }
    ensures { OnOk result (out.new.items ≡ answer_text word.now answer) }
{
    match answer {
        Ok(()) => line_done(alloc, word, out),
        Err(error) => line_refused(alloc, word, error, out),
    }
}

/// Adds the line of a call that answers a buffer's id.
pub(crate) fn line_new_id(
    alloc: Global,
    word: &str,
    answer: Result<BufferId, GcError>,
    out: &mut Vec<u8>,
) -> Result<(), NoMemory>
    requires empty { out.old.items ≡ [] }
    ensures { OnOk result (out.new.items ≡ id_text word.now answer) }
{
    match answer {
        Ok(id) => line_id(alloc, word, id, out),
        Err(error) => line_refused(alloc, word, error, out),
    }
}

/// Adds the line of a call that answers the value of an information.
pub(crate) fn line_info(
    alloc: Global,
    word: &str,
    which: u32,
    answer: Result<u64, GcError>,
    out: &mut Vec<u8>,
) -> Result<(), NoMemory>
    requires empty { out.old.items ≡ [] }
    ensures { OnOk result (out.new.items ≡ value_text word.now which answer) }
{
    match answer {
        Ok(value) => line_value(alloc, word, which, value, out),
        Err(error) => line_refused(alloc, word, error, out),
    }
}
