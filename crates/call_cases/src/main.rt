//! Cases of the program's call: each line of standard input is a command line with the ports that it runs over, and is
//! written again with how the call ended; the lines of its report stand below.
//!
//! `WORDS / SETTINGS` calls `gevacq_top`; other rows call `plain_top`, or tell what words ask for (`plain`).
#![tactic(auto)]

mod datagrams;
mod outcome;
mod pacing;
mod plain; // commands without ports
mod running;
mod setting;

use outcome::show;
use running::run;
use setting::{Setting, Wrong};
use std::io;
use std::sync::Wait;
use std::thread::Threads;

fn main(rt: HostRuntime) -> io::Result<()> {
    let mut input = Vec::new(rt.alloc());
    print_all(&rt, &rt, &mut input)
}

/// Writes all lines of standard input again, each with what it comes to. A live run has its threads of `handles`.
fn print_all<R: Threads + Wait + Sync>(
    rt: &HostRuntime,
    handles: &R,
    input: &mut Vec<u8>,
) -> io::Result<()> {
    for line in rt.lines(rt.alloc()) {
        answer(rt, handles, input, line?.as_str())?;
    }
    Ok(())
}

/// Writes a line again, a row with its answer.
fn answer<R: Threads + Wait + Sync>(
    rt: &HostRuntime,
    handles: &R,
    input: &mut Vec<u8>,
    line: &str,
) -> io::Result<()> {
    match line.split_once(" /") {
        Some((words, settings)) => answer_call(rt, handles, line, words, settings),
        None => plain::answer(rt, rt.alloc(), input, line),
    }
}

/// Writes a row of a call again, with its answer.
fn answer_call<R: Threads + Wait + Sync>(
    rt: &HostRuntime,
    handles: &R,
    line: &str,
    words: &str,
    settings: &str,
) -> io::Result<()> {
    match Setting::read(rt.alloc(), settings) {
        Ok(setting) => call(rt, handles, line, words, &setting),
        Err(Wrong::NotUnderstood) => println!(rt; "{line} = not understood"),
        Err(Wrong::NoMemory) => println!(rt; "{line} = no memory"),
    }
}

/// Writes a row of a call with its answer.
fn call<R: Threads + Wait + Sync>(
    rt: &HostRuntime,
    handles: &R,
    line: &str,
    words: &str,
    setting: &Setting,
) -> io::Result<()> {
    match run(handles, rt.alloc(), words, setting) {
        Ok(outcome) => show(rt, line, setting, &outcome),
        Err(_) => println!(rt; "{line} = no memory"),
    }
}
