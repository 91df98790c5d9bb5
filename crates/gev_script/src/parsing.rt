ghost use Rattle.std.specs.Prelude.{◌≡◌, ◌≤◌, length, option_map, IfOk};
ghost use Rattle.gev_script.specs.Lines.{seen, view};
ghost use Rattle.gev_script.specs.Words.{parts_after};
ghost use Rattle.gev_script.specs.Tables.{row_of, names, later_names};
ghost use Rattle.gev_script.specs.Grammar.{line_named, first_name, line_of};
ghost use Rattle.gev_script.specs.Spelling.{IsScriptLine};

use crate::fields::{SPACE, is};
use crate::forms::{
    alone, announce_line, buffer_info_line, camera_header_line, close_all_line, command_line,
    datagram_line, flush_line, header_line, info_line, mode_line, open_child_line, queue_line,
    revoke_line, step_line, stop_line, tick_line,
};
use crate::kind::ScriptKind;
use crate::line::Line;
use crate::name::Name;
use crate::parts::first_part;

/// What the word names as the first of a line.
fn name_of(word: &[u8]) -> Result<Name, ScriptKind>
    ensures { result ≡ row_of names word.now }
{
    if is(word, b"gevacq") {
        return Ok(Name::Header);
    }
    if is(word, b"announce") {
        return Ok(Name::Announce);
    }
    if is(word, b"queue") {
        return Ok(Name::Queue);
    }
    if is(word, b"revoke") {
        return Ok(Name::Revoke);
    }
    if is(word, b"flush") {
        return Ok(Name::Flush);
    }
    if is(word, b"start") {
        return Ok(Name::Start);
    }
    if is(word, b"stop") {
        return Ok(Name::Stop);
    }
    if is(word, b"t") {
        return Ok(Name::Tick);
    }
    if is(word, b"d") {
        return Ok(Name::Datagram);
    }
    if is(word, b"take") {
        return Ok(Name::Take);
    }
    if is(word, b"kill") {
        return Ok(Name::Kill);
    }
    if is(word, b"event-flush") {
        return Ok(Name::EventFlush);
    }
    later_name_of(word)
}

/// The same, for the later rows of the table.
fn later_name_of(word: &[u8]) -> Result<Name, ScriptKind>
    ensures { result ≡ row_of later_names word.now }
{
    if is(word, b"info") {
        return Ok(Name::Info);
    }
    if is(word, b"binfo") {
        return Ok(Name::BufferInfo);
    }
    if is(word, b"open") {
        return Ok(Name::OpenChild);
    }
    if is(word, b"close") {
        return Ok(Name::CloseAll);
    }
    if is(word, b"step") {
        return Ok(Name::Step);
    }
    if is(word, b"mode") {
        return Ok(Name::Mode);
    }
    if is(word, b"end") {
        return Ok(Name::End);
    }
    if is(word, b"gevacq-camera") {
        return Ok(Name::CameraHeader);
    }
    if is(word, b"c") {
        return Ok(Name::Command);
    }
    if is(word, b"frame") {
        return Ok(Name::Frame);
    }
    Err(ScriptKind::Word)
}

/// What the first word of a line names, or `Word`.
pub fn first_name(line: &[u8]) -> Result<Name, ScriptKind>
    ensures { result ≡ first_name line.now }
{
    let (word, _rest) = first_part(SPACE, line);
    name_of(word)
}

/// The line of this name with these further words.
fn line_named(name: Name, rest: Option<&[u8]>) -> Result<Line<'_>, ScriptKind>
    ensures { seen result ≡ line_named name (parts_after 32 (option_map (λ r. r.now) rest.entry)) }
{
    match name {
        Name::Header => header_line(rest),
        Name::Announce => announce_line(rest),
        Name::Queue => queue_line(rest),
        Name::Revoke => revoke_line(rest),
        Name::Flush => flush_line(rest),
        Name::Start => alone(Line::Start, rest),
        Name::Stop => stop_line(rest),
        Name::Tick => tick_line(rest),
        Name::Datagram => datagram_line(rest),
        Name::Take => alone(Line::Take, rest),
        Name::Kill => alone(Line::Kill, rest),
        Name::EventFlush => alone(Line::EventFlush, rest),
        Name::Info => info_line(rest),
        Name::BufferInfo => buffer_info_line(rest),
        Name::OpenChild => open_child_line(rest),
        Name::CloseAll => close_all_line(rest),
        Name::Step => step_line(rest),
        Name::Mode => mode_line(rest),
        Name::End => alone(Line::End, rest),
        Name::CameraHeader => camera_header_line(rest),
        Name::Command => command_line(rest),
        Name::Frame => alone(Line::Frame, rest),
    }
}

fn read_line(line: &[u8]) -> Result<Line<'_>, ScriptKind>
    ensures { seen result ≡ line_of line.now }
{
    let (word, rest) = first_part(SPACE, line);
    let name = name_of(word)?;
    line_named(name, rest)
}

/// What a line says, without its line feed, or the first kind for which it is refused: `Header` exactly
/// where the first word is a header's and the line isn't that header; else `Word`, `Number` or `Hex`.
pub fn parse_line(line: &[u8]) -> Result<Line<'_>, ScriptKind>
    requires { length line.now ≤ 20000 }
    ensures value { seen result ≡ line_of line.now }
    ensures is_line { IfOk result (λ l. IsScriptLine (view l)) }
{
    read_line(line)
}
