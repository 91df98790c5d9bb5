ghost use Rattle.std.specs.Prelude.{◌≡◌, Some, IfSome};
ghost use Rattle.camera_words.specs.Receiving.{choice_by, write_by, word_in, FitsWord};

use crate::choices::{setting_named, value_in};
use crate::parts::{before_byte, behind_byte};
use crate::setting::{Choice, ReceiveWord};
use crate::writes::{stage_in, write_in};

/// The setting that `<name>=<text>` is.
fn choice_by(name: &[u8], text: &[u8]) -> Option<ReceiveWord>
    ensures value { result ≡ choice_by name.now (Some text.now) }
    ensures within { IfSome result FitsWord }
{
    match setting_named(name) {
        Some(setting) => match value_in(setting, text) {
            Some(value) => Some(ReceiveWord::Choose(Choice { setting, value })),
            None => None,
        },
        None => None,
    }
}

/// The write that `<stage>:<text>` is.
fn write_by(stage: &[u8], text: &[u8]) -> Option<ReceiveWord>
    ensures value { result ≡ write_by stage.now text.now }
    ensures within { IfSome result FitsWord }
{
    match stage_in(stage) {
        Some(stage) => match write_in(stage, text) {
            Some(write) => Some(ReceiveWord::Write(write)),
            None => None,
        },
        None => None,
    }
}

/// What a word behind the number of frames says.
pub(crate) fn word_in(word: &[u8]) -> Option<ReceiveWord>
    ensures value { result ≡ word_in word.now }
    ensures within { IfSome result FitsWord }
{
    match behind_byte(b':', word) {
        Some(text) => write_by(before_byte(b':', word), text),
        None => match behind_byte(b'=', word) {
            Some(text) => choice_by(before_byte(b'=', word), text),
            None => None,
        },
    }
}
