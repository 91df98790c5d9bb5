ghost use Rattle.std.specs.Prelude.{◌≡◌, ◌++◌, ◌∷◌, OnOk, OnErr, decimal, codes};
ghost use Rattle.gev_script.specs.Lines.{view, header, buffer_info, open_child, step, command};
ghost use Rattle.gev_script.specs.Spelling.{spelling, IsScriptLine, id_word, parent_word, act_word};
ghost use Rattle.gev_script.specs.Writing.{Adds};

use crate::act::Act;
use crate::line::Line;
use gev_types::NoMemory;
use itoa::Buffer;
use std::alloc::Global;

/// Adds a text.
fn add(out: &mut Vec<u8>, text: &[u8]) -> Result<(), NoMemory>
    ensures { Adds result out.old.items out.new.items text.now }
{
    out.extend_from_slice(text)?;
    Ok(())
}

/// Adds a text, and a number in decimal.
fn add_number(out: &mut Vec<u8>, text: &[u8], number: u64) -> Result<(), NoMemory>
    ensures { Adds result out.old.items out.new.items (text.now ++ decimal number) }
{
    let mut buffer = Buffer::new();
    add(out, text)?;
    add(out, buffer.format(number).as_bytes())
}

/// Adds a text, and a number of at most 32 bits in decimal.
fn add_small(out: &mut Vec<u8>, text: &[u8], number: u32) -> Result<(), NoMemory>
    ensures { Adds result out.old.items out.new.items (text.now ++ decimal number) }
{
    add_number(out, text, u64::from(number))
}

/// Adds a text, and a buffer id.
fn add_id(out: &mut Vec<u8>, text: &[u8], place: u8, generation: u32) -> Result<(), NoMemory>
    ensures { Adds result out.old.items out.new.items (text.now ++ id_word place generation) }
{
    add_number(out, text, u64::from(place))?;
    add_number(out, b".", u64::from(generation))
}

/// Adds two texts.
fn add_both(out: &mut Vec<u8>, text: &[u8], more: &[u8]) -> Result<(), NoMemory>
    ensures { Adds result out.old.items out.new.items (text.now ++ more.now) }
{
    add(out, text)?;
    add(out, more)
}

/// Adds the numbers of a header that tell of times, each behind a space.
fn add_times(out: &mut Vec<u8>, timeout: u32, age: u32, rounds: u8) -> Result<(), NoMemory>
    ensures { Adds result out.old.items out.new.items (32 ∷ decimal timeout ++ 32 ∷ decimal age ++ 32 ∷ decimal rounds) }
{
    add_number(out, b" ", u64::from(timeout))?;
    add_number(out, b" ", u64::from(age))?;
    add_number(out, b" ", u64::from(rounds))
}

/// Adds the first word of a header, and its numbers that tell of sizes.
fn add_sizes(out: &mut Vec<u8>, version: u8, p: u32, window: u8) -> Result<(), NoMemory>
    ensures { Adds result out.old.items out.new.items (codes "gevacq " ++ decimal version ++ 32 ∷ decimal p ++ 32 ∷ decimal window) }
{
    add_number(out, b"gevacq ", u64::from(version))?;
    add_number(out, b" ", u64::from(p))?;
    add_number(out, b" ", u64::from(window))
}

/// Adds a header.
fn add_header(
    out: &mut Vec<u8>,
    version: u8,
    p: u32,
    window: u8,
    timeout: u32,
    age: u32,
    rounds: u8,
) -> Result<(), NoMemory>
    ensures { Adds result out.old.items out.new.items (spelling (header (record { version = version; p = p; window = window; timeout = timeout; age = age; rounds = rounds }))) }
{
    add_sizes(out, version, p, window)?;
    add_times(out, timeout, age, rounds)
}

/// Adds the line that asks for what is known of a buffer.
fn add_buffer_info(
    out: &mut Vec<u8>,
    place: u8,
    generation: u32,
    which: u32,
) -> Result<(), NoMemory>
    ensures { Adds result out.old.items out.new.items (spelling (buffer_info place generation which)) }
{
    add_id(out, b"binfo ", place, generation)?;
    add_small(out, b" ", which)
}

/// Adds a text, and a parent's serial, or `-` for none.
fn add_parent(out: &mut Vec<u8>, text: &[u8], parent: Option<u64>) -> Result<(), NoMemory>
    ensures { Adds result out.old.items out.new.items (text.now ++ parent_word parent) }
{
    match parent {
        Some(serial) => add_number(out, text, serial),
        None => add_both(out, text, b"-"),
    }
}

/// Adds the line that opens a child.
fn add_child(out: &mut Vec<u8>, parent: Option<u64>, index: u32) -> Result<(), NoMemory>
    ensures { Adds result out.old.items out.new.items (spelling (open_child parent index)) }
{
    add_parent(out, b"open ", parent)?;
    add_small(out, b" ", index)
}

/// Adds the line of a command.
fn add_command(out: &mut Vec<u8>, peer: u16, hex: &[u8]) -> Result<(), NoMemory>
    ensures { Adds result out.old.items out.new.items (spelling (command peer hex.now)) }
{
    add_number(out, b"c ", u64::from(peer))?;
    add_both(out, b" ", hex)
}

/// The word of an act.
fn act_word(act: Act) -> &'static [u8]
    ensures { result.now ≡ act_word act }
{
    match act {
        Act::Grab => b"grab",
        Act::Lay => b"lay",
        Act::Pool => b"pool",
        Act::Fill => b"fill",
        Act::Claim => b"claim",
        Act::Take => b"take",
        Act::SweepPool => b"sweep-pool",
        Act::SweepOut => b"sweep-out",
        Act::Close => b"close",
    }
}

/// Adds a step.
fn add_step(out: &mut Vec<u8>, actor: u8, act: Act, place: Option<u8>) -> Result<(), NoMemory>
    ensures { Adds result out.old.items out.new.items (spelling (step actor act place)) }
{
    add_number(out, b"step ", u64::from(actor))?;
    add_both(out, b" ", act_word(act))?;
    match place {
        Some(place) => add_number(out, b" ", u64::from(place)),
        None => Ok(()),
    }
}

/// Adds the one spelling of a line.
fn add_line(out: &mut Vec<u8>, line: &Line<'_>) -> Result<(), NoMemory>
    ensures { Adds result out.old.items out.new.items (spelling (view line.now)) }
{
    match *line {
        Line::Header {
            version,
            p,
            window,
            timeout,
            age,
            rounds,
        } => add_header(out, version, p, window, timeout, age, rounds),
        Line::Announce { size } => add_number(out, b"announce ", size),
        Line::Queue { place, generation } => add_id(out, b"queue ", place, generation),
        Line::Revoke { place, generation } => add_id(out, b"revoke ", place, generation),
        Line::Flush { operation } => add_small(out, b"flush ", operation),
        Line::Start => add(out, b"start"),
        Line::Stop { flags } => add_small(out, b"stop ", flags),
        Line::Tick { moment } => add_number(out, b"t ", moment),
        Line::Datagram { hex } => add_both(out, b"d ", hex),
        Line::Take => add(out, b"take"),
        Line::Kill => add(out, b"kill"),
        Line::EventFlush => add(out, b"event-flush"),
        Line::Info { which } => add_small(out, b"info ", which),
        Line::BufferInfo {
            place,
            generation,
            which,
        } => add_buffer_info(out, place, generation, which),
        Line::OpenChild { parent, index } => add_child(out, parent, index),
        Line::CloseAll { serial } => add_number(out, b"close ", serial),
        Line::Step { actor, act, place } => add_step(out, actor, act, place),
        Line::Mode { mode } => add_small(out, b"mode ", u32::from(mode)),
        Line::End => add(out, b"end"),
        Line::CameraHeader => add(out, b"gevacq-camera 1"),
        Line::Command { peer, hex } => add_command(out, peer, hex),
        Line::Frame => add(out, b"frame"),
    }
}

/// Adds the one spelling of a line, without a line feed. After NoMemory the text is as it was.
pub fn write_line(_alloc: Global, line: &Line<'_>, out: &mut Vec<u8>) -> Result<(), NoMemory>
    requires { IsScriptLine (view line.now) }
    ensures added { OnOk result (out.new.items ≡ out.old.items ++ spelling (view line.now)) }
    ensures same { OnErr result (out.new.items ≡ out.old.items) }
{
    let length = out.len();
    let added = add_line(out, line);
    if added.is_err() {
        out.truncate(length);
    }
    added
}
