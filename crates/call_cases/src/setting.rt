//! What a row says of the ports, the sink and the gate: `NAME=VALUE` for each, with lists parted by commas.

use crate::datagrams::{ACKS, Heard, put_datagram};
use gev_types::NoMemory;
use std::alloc::{AllocFailed, Global};

/// Why a setting can't be read.
#[derive(Drop)]
pub enum Wrong {
    NotUnderstood,
    NoMemory,
}

impl From<NoMemory> for Wrong {
    fn from(_error: NoMemory) -> Wrong {
        Wrong::NoMemory
    }
}

impl<T: Drop> From<AllocFailed<T>> for Wrong {
    fn from(_error: AllocFailed<T>) -> Wrong {
        Wrong::NoMemory
    }
}

/// What is written of a report: all lines, those without a buffer's place, those of takes, or those of whole frames
/// that the row doesn't know.
#[derive(Clone, Copy, PartialEq, Eq)]
pub enum Shown {
    All,
    AnyPlace,
    Takes,
    Unknown,
}

/// The numbers of the calls that fail, from 1: binds, receives of the stream's link and of the control link, sends of the
/// control link, and writes.
#[derive(Clone, Copy)]
pub struct Fails {
    pub bind: &'static [u64],
    pub hear: &'static [u64],
    pub answer: &'static [u64],
    pub send: &'static [u64],
    pub write: &'static [u64],
}

impl Fails {
    /// No call fails.
    fn none() -> Fails {
        Fails {
            bind: &[],
            hear: &[],
            answer: &[],
            send: &[],
            write: &[],
        }
    }

    /// Sets which calls of this name fail: whether it's such a name.
    fn set(&mut self, name: &str, value: &str) -> Result<bool, Wrong> {
        match name {
            "bind" => self.bind = only(value)?,
            "hear" => self.hear = only(value)?,
            "answer" => self.answer = only(value)?,
            "send" => self.send = only(value)?,
            "write" => self.write = only(value)?,
            _ => return Ok(false),
        }
        Ok(true)
    }
}

/// The ports, the sink, the source and the gate of a call, and what is written of its report.
#[derive(Drop)]
pub struct Setting {
    /// What the stream's link and the control link hear: nothing, and the acknowledges of the setup.
    pub stream: Vec<Heard>,
    pub control: Vec<Heard>,
    /// The moments of the host's clock: without any it stands at 0.
    pub moments: Vec<u64>,
    pub fails: Fails,
    /// The most bytes that the sink takes and the source gives at once.
    pub piece: usize,
    /// How the gate holds fills and takes.
    pub pace: Vec<u64>,
    /// What the source gives, and whether what the call wrote is replayed.
    pub script: Vec<u8>,
    pub replays: bool,
    pub shown: Shown,
    /// The ends of the lines of whole frames.
    pub known: Vec<Vec<u8>>,
    /// Whether a run may end done or with its turns spent.
    pub either: bool,
    /// Whether what was kept and sent is written.
    pub kept: bool,
}

impl Setting {
    /// The settings of a row without any, where the control link hears these datagrams.
    fn new(alloc: Global, control: Vec<Heard>) -> Setting {
        Setting {
            stream: Vec::new(alloc),
            control,
            moments: Vec::new(alloc),
            fails: Fails::none(),
            piece: 1000,
            pace: Vec::new(alloc),
            script: Vec::new(alloc),
            replays: false,
            shown: Shown::All,
            known: Vec::new(alloc),
            either: false,
            kept: false,
        }
    }

    /// The settings of a row.
    pub fn read(alloc: Global, text: &str) -> Result<Setting, Wrong> {
        let mut setting = Setting::new(alloc, datagrams(alloc, ACKS)?);
        setting.set_all(alloc, text)?;
        Ok(setting)
    }

    /// Sets what the words of a text are of.
    fn set_all(&mut self, alloc: Global, text: &str) -> Result<(), Wrong> {
        for word in text.split_whitespace() {
            let (name, value) = word.split_once("=").unwrap_or((word, ""));
            self.set(alloc, name, value)?;
        }
        Ok(())
    }

    /// Sets what this name is of.
    fn set(&mut self, alloc: Global, name: &str, value: &str) -> Result<(), Wrong> {
        if self.set_links(alloc, name, value)?
            || self.fails.set(name, value)?
            || self.set_run(alloc, name, value)?
            || self.set_shown(alloc, name, value)?
        {
            return Ok(());
        }
        Err(Wrong::NotUnderstood)
    }

    /// Sets what the links hear and the clock tells: whether it's such a name.
    fn set_links(&mut self, alloc: Global, name: &str, value: &str) -> Result<bool, Wrong> {
        match name {
            "stream" => self.stream = datagrams(alloc, value)?,
            "control" => self.control = datagrams(alloc, value)?,
            "again" => self.answer_again(alloc, value)?,
            "clock" => self.moments = moments(alloc, value)?,
            "moments" => self.moments = numbers(alloc, value)?,
            "steps" => self.moments = steps(alloc, value)?,
            _ => return Ok(false),
        }
        Ok(true)
    }

    /// Sets what the sink, the gate and the source are: whether it's such a name.
    fn set_run(&mut self, alloc: Global, name: &str, value: &str) -> Result<bool, Wrong> {
        match name {
            "piece" => self.piece = number(value)? as usize,
            "pace" => self.pace = numbers(alloc, value)?,
            "script" => self.script = spaced(alloc, value)?,
            "replay" => self.replays = true,
            _ => return Ok(false),
        }
        Ok(true)
    }

    /// Sets what is written of the report: whether it's such a name.
    fn set_shown(&mut self, alloc: Global, name: &str, value: &str) -> Result<bool, Wrong> {
        match name {
            "anyplace" => self.shown = Shown::AnyPlace,
            "takes" => self.shown = Shown::Takes,
            "known" => self.know(alloc, value)?,
            "either" => self.either = true,
            "kept" => self.kept = true,
            _ => return Ok(false),
        }
        Ok(true)
    }

    /// The control link hears these behind the rest, a hundred times over.
    fn answer_again(&mut self, alloc: Global, list: &str) -> Result<(), Wrong> {
        for _ in 0..100u32 {
            put_datagrams(alloc, &mut self.control, list)?;
        }
        Ok(())
    }

    fn know(&mut self, alloc: Global, value: &str) -> Result<(), Wrong> {
        self.shown = Shown::Unknown;
        for end in value.split(',') {
            self.known.push(spaced(alloc, end)?)?;
        }
        Ok(())
    }
}

/// A decimal number.
fn number(text: &str) -> Result<u64, Wrong> {
    text.parse::<u64>().map_err(|_| Wrong::NotUnderstood)
}

/// A list of this number alone.
fn only(text: &str) -> Result<&'static [u64], Wrong> {
    match text {
        "1" => Ok(&[1]),
        "2" => Ok(&[2]),
        "3" => Ok(&[3]),
        "4" => Ok(&[4]),
        "5" => Ok(&[5]),
        _ => Err(Wrong::NotUnderstood),
    }
}

/// Numbers parted by commas.
fn numbers(alloc: Global, list: &str) -> Result<Vec<u64>, Wrong> {
    let mut all = Vec::new(alloc);
    for text in list.split(',') {
        all.push(number(text)?)?;
    }
    Ok(all)
}

/// The moments up to this one, each by one later.
fn moments(alloc: Global, last: &str) -> Result<Vec<u64>, Wrong> {
    let last = number(last)?;
    let mut all = Vec::new(alloc);
    for moment in 0..=last {
        all.push(moment)?;
    }
    Ok(all)
}

/// Moments that rise by steps, `RISE*TIMES` for each with so many readings, from 0 on.
fn steps(alloc: Global, list: &str) -> Result<Vec<u64>, Wrong> {
    let mut all = Vec::new(alloc);
    let mut moment = 0u64;
    for step in list.split(',') {
        let (rise, times) = step.split_once("*").ok_or(Wrong::NotUnderstood)?;
        let rise = number(rise)?;
        for _ in 0..number(times)? {
            moment = moment.saturating_add(rise);
            all.push(moment)?;
        }
    }
    Ok(all)
}

/// Datagrams parted by commas; of an empty list none.
fn datagrams(alloc: Global, list: &str) -> Result<Vec<Heard>, Wrong> {
    let mut all = Vec::new(alloc);
    put_datagrams(alloc, &mut all, list)?;
    Ok(all)
}

/// Puts such datagrams.
fn put_datagrams(alloc: Global, all: &mut Vec<Heard>, list: &str) -> Result<(), Wrong> {
    for name in list.split(',') {
        if !name.is_empty() {
            put_datagram(alloc, all, name)?;
        }
    }
    Ok(())
}

/// A text that is written with `_` for a space and `;` for the end of a line.
fn spaced(alloc: Global, written: &str) -> Result<Vec<u8>, NoMemory> {
    let mut bytes = Vec::new(alloc);
    for byte in written.bytes() {
        bytes.push(match byte {
            b'_' => b' ',
            b';' => b'\n',
            _ => byte,
        })?;
    }
    Ok(bytes)
}
