ghost use Rattle.std.specs.Prelude.{◌≡◌, option_map};
ghost use Rattle.gev_script.specs.Lines.{seen, view};
ghost use Rattle.gev_script.specs.Words.{parts_after};
ghost use Rattle.gev_script.specs.Tables.{row_of, acts_alone, acts_at_place};
ghost use Rattle.gev_script.specs.Grammar.{alone, times_of, header_fields, header_line, announce_line, queue_line, revoke_line, flush_line, stop_line, tick_line, datagram_line, info_line, buffer_info_line, open_child_line, close_all_line, step_alone, step_at_place, step_of, step_line, mode_line, camera_header_fields, camera_header_line, command_line};

use crate::act::Act;
use crate::fields::{
    SPACE, after_word, id_after, id_of, is, most_p, next_number, number_after, parent_of, u32_after,
};
use crate::kind::ScriptKind;
use crate::line::Line;
use crate::numbers::{hex_of, number_in, u8_in, u32_of};
use crate::parts::{first_part, next_part, no_part, one_part, two_parts};
use gev_types::MIN_PAYLOAD_SIZE;

/// The block timeout, the age of requests and their rounds, the last numbers of a header.
fn times_of(rest: Option<&[u8]>) -> Result<(u32, u32, u8), ScriptKind>
    ensures { result ≡ times_of (parts_after 32 (option_map (λ r. r.now) rest.entry)) }
{
    let (timeout, rest) = next_number(1, 60_000, rest)?;
    let (age, rest) = next_number(1, 60_000, rest)?;
    let (rounds, rest) = next_number(0, 8, rest)?;
    no_part(SPACE, rest)?;
    Ok((timeout as u32, age as u32, rounds as u8))
}

fn header_fields(rest: Option<&[u8]>) -> Result<Line<'_>, ScriptKind>
    ensures { seen result ≡ header_fields (parts_after 32 (option_map (λ r. r.now) rest.entry)) }
{
    let (version, rest) = next_number(1, 2, rest)?;
    let (p, rest) = next_number(u64::from(MIN_PAYLOAD_SIZE), most_p(version), rest)?;
    let (window, rest) = next_number(1, 4, rest)?;
    let (timeout, age, rounds) = times_of(rest)?;
    Ok(Line::Header {
        version: version as u8,
        p: p as u32,
        window: window as u8,
        timeout,
        age,
        rounds,
    })
}

/// `gevacq <version> <p> <window> <timeout> <age> <rounds>`
pub(crate) fn header_line(rest: Option<&[u8]>) -> Result<Line<'_>, ScriptKind>
    ensures { seen result ≡ header_line (parts_after 32 (option_map (λ r. r.now) rest.entry)) }
{
    match header_fields(rest) {
        Ok(line) => Ok(line),
        Err(_) => Err(ScriptKind::Header),
    }
}

/// A line of its first word alone.
pub(crate) fn alone<'a>(line: Line<'a>, rest: Option<&[u8]>) -> Result<Line<'a>, ScriptKind>
    ensures { seen result ≡ alone (view line.entry) (parts_after 32 (option_map (λ r. r.now) rest.entry)) }
{
    no_part(SPACE, rest)?;
    Ok(line)
}

/// `announce <size>`
pub(crate) fn announce_line(rest: Option<&[u8]>) -> Result<Line<'_>, ScriptKind>
    ensures { seen result ≡ announce_line (parts_after 32 (option_map (λ r. r.now) rest.entry)) }
{
    let size = number_after(rest)?;
    Ok(Line::Announce { size })
}

/// `queue <id>`
pub(crate) fn queue_line(rest: Option<&[u8]>) -> Result<Line<'_>, ScriptKind>
    ensures { seen result ≡ queue_line (parts_after 32 (option_map (λ r. r.now) rest.entry)) }
{
    let (place, generation) = id_after(rest)?;
    Ok(Line::Queue { place, generation })
}

/// `revoke <id>`
pub(crate) fn revoke_line(rest: Option<&[u8]>) -> Result<Line<'_>, ScriptKind>
    ensures { seen result ≡ revoke_line (parts_after 32 (option_map (λ r. r.now) rest.entry)) }
{
    let (place, generation) = id_after(rest)?;
    Ok(Line::Revoke { place, generation })
}

/// `flush <n>`
pub(crate) fn flush_line(rest: Option<&[u8]>) -> Result<Line<'_>, ScriptKind>
    ensures { seen result ≡ flush_line (parts_after 32 (option_map (λ r. r.now) rest.entry)) }
{
    let operation = u32_after(rest)?;
    Ok(Line::Flush { operation })
}

/// `stop <n>`
pub(crate) fn stop_line(rest: Option<&[u8]>) -> Result<Line<'_>, ScriptKind>
    ensures { seen result ≡ stop_line (parts_after 32 (option_map (λ r. r.now) rest.entry)) }
{
    let flags = u32_after(rest)?;
    Ok(Line::Stop { flags })
}

/// `t <moment>`
pub(crate) fn tick_line(rest: Option<&[u8]>) -> Result<Line<'_>, ScriptKind>
    ensures { seen result ≡ tick_line (parts_after 32 (option_map (λ r. r.now) rest.entry)) }
{
    let moment = number_after(rest)?;
    Ok(Line::Tick { moment })
}

/// `d <hex>`
pub(crate) fn datagram_line(rest: Option<&[u8]>) -> Result<Line<'_>, ScriptKind>
    ensures { seen result ≡ datagram_line (parts_after 32 (option_map (λ r. r.now) rest.entry)) }
{
    let word = one_part(SPACE, rest)?;
    let hex = hex_of(word)?;
    Ok(Line::Datagram { hex })
}

/// `info <n>`
pub(crate) fn info_line(rest: Option<&[u8]>) -> Result<Line<'_>, ScriptKind>
    ensures { seen result ≡ info_line (parts_after 32 (option_map (λ r. r.now) rest.entry)) }
{
    let which = u32_after(rest)?;
    Ok(Line::Info { which })
}

/// `binfo <id> <n>`
pub(crate) fn buffer_info_line(rest: Option<&[u8]>) -> Result<Line<'_>, ScriptKind>
    ensures { seen result ≡ buffer_info_line (parts_after 32 (option_map (λ r. r.now) rest.entry)) }
{
    let (id, which) = two_parts(SPACE, rest)?;
    let (place, generation) = id_of(id)?;
    let which = u32_of(which)?;
    Ok(Line::BufferInfo {
        place,
        generation,
        which,
    })
}

/// `open <parent> <index>`
pub(crate) fn open_child_line(rest: Option<&[u8]>) -> Result<Line<'_>, ScriptKind>
    ensures { seen result ≡ open_child_line (parts_after 32 (option_map (λ r. r.now) rest.entry)) }
{
    let (parent, index) = two_parts(SPACE, rest)?;
    let parent = parent_of(parent)?;
    let index = u32_of(index)?;
    Ok(Line::OpenChild { parent, index })
}

/// `close <serial>`
pub(crate) fn close_all_line(rest: Option<&[u8]>) -> Result<Line<'_>, ScriptKind>
    ensures { seen result ≡ close_all_line (parts_after 32 (option_map (λ r. r.now) rest.entry)) }
{
    let serial = number_after(rest)?;
    Ok(Line::CloseAll { serial })
}

/// The act of this name that names no place.
fn act_alone(word: &[u8]) -> Result<Act, ScriptKind>
    ensures { result ≡ row_of acts_alone word.now }
{
    if is(word, b"claim") {
        return Ok(Act::Claim);
    }
    if is(word, b"take") {
        return Ok(Act::Take);
    }
    if is(word, b"sweep-pool") {
        return Ok(Act::SweepPool);
    }
    if is(word, b"sweep-out") {
        return Ok(Act::SweepOut);
    }
    if is(word, b"close") {
        return Ok(Act::Close);
    }
    Err(ScriptKind::Word)
}

/// The act of this name on a place.
fn act_at_place(word: &[u8]) -> Result<Act, ScriptKind>
    ensures { result ≡ row_of acts_at_place word.now }
{
    if is(word, b"grab") {
        return Ok(Act::Grab);
    }
    if is(word, b"lay") {
        return Ok(Act::Lay);
    }
    if is(word, b"pool") {
        return Ok(Act::Pool);
    }
    if is(word, b"fill") {
        return Ok(Act::Fill);
    }
    Err(ScriptKind::Word)
}

fn step_alone<'a>(actor: &[u8], act: &[u8]) -> Result<Line<'a>, ScriptKind>
    ensures { seen result ≡ step_alone actor.now act.now }
{
    let act = act_alone(act)?;
    let actor = u8_in(1, 4, actor)?;
    Ok(Line::Step {
        actor,
        act,
        place: None,
    })
}

fn step_at_place<'a>(actor: &[u8], act: &[u8], place: &[u8]) -> Result<Line<'a>, ScriptKind>
    ensures { seen result ≡ step_at_place actor.now act.now place.now }
{
    let act = act_at_place(act)?;
    let actor = u8_in(1, 4, actor)?;
    let place = u8_in(0, 14, place)?;
    Ok(Line::Step {
        actor,
        act,
        place: Some(place),
    })
}

/// A step, by whether a further word names a place.
fn step_of<'a>(actor: &[u8], act: &[u8], rest: Option<&[u8]>) -> Result<Line<'a>, ScriptKind>
    ensures { seen result ≡ step_of actor.now act.now (parts_after 32 (option_map (λ r. r.now) rest.entry)) }
{
    let Some(text) = rest else {
        return step_alone(actor, act);
    };
    let (place, rest) = first_part(SPACE, text);
    no_part(SPACE, rest)?;
    step_at_place(actor, act, place)
}

/// `step <actor> <act>` or `step <actor> <act> <place>`
pub(crate) fn step_line(rest: Option<&[u8]>) -> Result<Line<'_>, ScriptKind>
    ensures { seen result ≡ step_line (parts_after 32 (option_map (λ r. r.now) rest.entry)) }
{
    let (actor, rest) = next_part(SPACE, rest)?;
    let (act, rest) = next_part(SPACE, rest)?;
    step_of(actor, act, rest)
}

/// `mode <n>`
pub(crate) fn mode_line(rest: Option<&[u8]>) -> Result<Line<'_>, ScriptKind>
    ensures { seen result ≡ mode_line (parts_after 32 (option_map (λ r. r.now) rest.entry)) }
{
    let word = one_part(SPACE, rest)?;
    let mode = u8_in(0, 2, word)?;
    Ok(Line::Mode { mode })
}

fn camera_header_fields(rest: Option<&[u8]>) -> Result<Line<'_>, ScriptKind>
    ensures { seen result ≡ camera_header_fields (parts_after 32 (option_map (λ r. r.now) rest.entry)) }
{
    let rest = after_word(b"1", rest)?;
    alone(Line::CameraHeader, rest)
}

/// `gevacq-camera 1`
pub(crate) fn camera_header_line(rest: Option<&[u8]>) -> Result<Line<'_>, ScriptKind>
    ensures { seen result ≡ camera_header_line (parts_after 32 (option_map (λ r. r.now) rest.entry)) }
{
    match camera_header_fields(rest) {
        Ok(line) => Ok(line),
        Err(_) => Err(ScriptKind::Header),
    }
}

/// `c <peer> <hex>`
pub(crate) fn command_line(rest: Option<&[u8]>) -> Result<Line<'_>, ScriptKind>
    ensures { seen result ≡ command_line (parts_after 32 (option_map (λ r. r.now) rest.entry)) }
{
    let (peer, hex) = two_parts(SPACE, rest)?;
    let peer = number_in(1, 65_535, peer)?;
    let hex = hex_of(hex)?;
    Ok(Line::Command {
        peer: peer as u16,
        hex,
    })
}
