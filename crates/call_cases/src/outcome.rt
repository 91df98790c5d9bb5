//! How a call ended, and how a row tells it.

use crate::setting::{Setting, Shown};
use gev_status::Status;
use gev_types::Peer;
use std::{io, str};

/// A datagram that was sent: to whom, and its bytes in hexadecimal.
#[derive(Drop)]
pub struct Sent {
    pub peer: Peer,
    pub digits: String,
}

/// How a call ended: what it answered, the run word of the board that was kept, and whether a worker waited in vain at the
/// gate.
#[derive(Drop)]
pub struct End {
    pub status: Status,
    pub run: Option<u8>,
    pub is_missed: bool,
}

/// The same with what it wrote, how many links came back, how many faults the ports count, whether the source has ended, the
/// short datagrams that the control link sent, and how many longer ones it did.
#[derive(Drop)]
pub struct Outcome {
    pub end: End,
    pub written: Vec<u8>,
    pub links: usize,
    pub faults: u64,
    pub ended: bool,
    pub sent: Vec<Sent>,
    pub longer: u64,
}

/// Writes a row with how it ended, and the lines of its report that it shows.
pub fn show(rt: &HostRuntime, line: &str, setting: &Setting, outcome: &Outcome) -> io::Result<()> {
    show_end(rt, line, setting, outcome)?;
    show_report(rt, setting, outcome.written.as_slice())?;
    if setting.kept {
        return show_kept(rt, outcome);
    }
    Ok(())
}

/// Writes a row with how it ended.
fn show_end(rt: &HostRuntime, line: &str, setting: &Setting, outcome: &Outcome) -> io::Result<()> {
    let Outcome {
        end,
        links,
        faults,
        ..
    } = outcome;
    let status = &end.status;
    let rest = rest_of(end);
    if setting.either && may_end_so(status) {
        return println!(rt; "{line} = done or spent, {links} links, {faults} faults, {rest}");
    }
    println!(rt; "{line} = {status}, {links} links, {faults} faults, {rest}")
}

/// Whether a board was kept, and whether a worker waited in vain.
fn rest_of(end: &End) -> &'static str {
    match (end.run, end.is_missed) {
        (Some(_), false) => "a board",
        (Some(_), true) => "a board, missed",
        (None, false) => "no board",
        (None, true) => "no board, missed",
    }
}

/// Writes the lines of a report that are shown.
fn show_report(rt: &HostRuntime, setting: &Setting, written: &[u8]) -> io::Result<()> {
    let text = str::from_utf8(written).unwrap_or("not a text");
    for each in text.split('\n') {
        if !each.is_empty() && is_shown(setting, each) {
            show_line(rt, setting.shown, each)?;
        }
    }
    Ok(())
}

/// Writes the run word of the board that was kept, what the control link sent, and whether the source has ended.
fn show_kept(rt: &HostRuntime, outcome: &Outcome) -> io::Result<()> {
    if let Some(run) = outcome.end.run {
        println!(rt; "  run word {run}")?;
    }
    for sent in &outcome.sent {
        let Peer { address, port } = sent.peer;
        println!(rt; "  to {address:x}:{port} {}", sent.digits)?;
    }
    println!(rt;
        "  {} longer ones, input ended {}",
        outcome.longer, outcome.ended
    )
}

/// Whether a live run that isn't hindered may end so.
fn may_end_so(status: &Status) -> bool {
    match status {
        Status::Done => true,
        Status::TurnsSpent { .. } => true,
        _ => false,
    }
}

/// Whether this line of a report is written.
fn is_shown(setting: &Setting, line: &str) -> bool {
    match setting.shown {
        Shown::All | Shown::AnyPlace => true,
        Shown::Takes => line.starts_with("take "),
        Shown::Unknown => {
            if line.starts_with("live ") {
                return !setting.either;
            }
            line.contains("complete=1") && !is_known(setting, line)
        }
    }
}

/// Whether the line has one of the known ends.
fn is_known(setting: &Setting, line: &str) -> bool {
    for end in &setting.known {
        if line.as_bytes().ends_with(end.as_slice()) {
            return true;
        }
    }
    false
}

/// Writes a line of a report, of a take without its buffer's place where it may have any.
fn show_line(rt: &HostRuntime, shown: Shown, line: &str) -> io::Result<()> {
    if shown == Shown::AnyPlace {
        if let Some((_, rest)) = line.split_once(".") {
            return println!(rt; "  take any.{rest}");
        }
    }
    println!(rt; "  {line}")
}
