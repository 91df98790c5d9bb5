//! `gevacq`, a host for GigE Vision cameras: the command line, standard input and standard output.
#![tactic(auto)]

mod help;

use crate::help::{HELP, USAGE, print_help_on};
use gev_program::gevacq_top;
use gev_real::{CallFault, RealPorts, RestingBell, SentCommand, StandardInput, StandardOutput};
use gev_status::Status;
use std::fs::Files;
use std::net::Net;
use std::process::ExitCode;
use std::sync::Wait;
use std::thread::Threads;
use std::time::Clock;
use std::{env, io};

/// The program's name and version.
const VERSION: &str = "gevacq 0.4.0\n";

fn main(rt: HostRuntime) -> ExitCode {
    let status = match words(&rt) {
        Ok(words) => run(&rt, &rt, words.as_slice()),
        Err(status) => status,
    };
    let _ = report(&rt, status);
    ExitCode::from(status.number())
}

/// The words of the command line, without the program's name. A word that is no text is answered as one
/// that isn't understood.
fn words(rt: &HostRuntime) -> Result<Vec<String>, Status> {
    let mut words = Vec::new(rt.alloc());
    let args = env::args(rt).map_err(|error| match error.kind() {
        io::ErrorKind::OutOfMemory => Status::NoMemory,
        _ => Status::Usage { place: 0 },
    })?;
    for word in args.skip(1) {
        if words.push(word).is_err() {
            return Err(Status::NoMemory);
        }
    }
    Ok(words)
}

/// Answers the words of the help and of the version, and hands every other command line on. A live run has its
/// threads and its sockets of `handles`.
fn run<R: Threads + Wait + Net + Clock + Files + Sync>(
    rt: &HostRuntime,
    handles: &R,
    words: &[String],
) -> Status {
    if let Some(printed) = print_help(rt, words) {
        return match printed {
            Ok(()) => Status::Done,
            Err(_) => Status::WriteFault,
        };
    }
    let mut source = StandardInput::new(rt.reader());
    let mut sink = StandardOutput::new(io::writer(rt));
    let mut ports = RealPorts::new(handles);
    let mut kept = None;
    let status = gevacq_top(
        handles,
        rt.alloc(),
        words,
        &mut source,
        &mut sink,
        &mut ports,
        &RestingBell::new(),
        &mut kept,
    );
    let _ = report_link(rt, status, &ports);
    status
}

/// Prints what the ports know of a fault: which call of the system failed, with its words for the reason, or which command
/// had no answer.
fn report_link<R: Net + Clock + Files + Sync>(
    rt: &HostRuntime,
    status: Status,
    ports: &RealPorts<'_, R>,
) -> io::Result<()> {
    match status {
        Status::LinkFault => match ports.fault() {
            Some(fault) => eprintln!(rt; "gevacq: {fault}"),
            None => Ok(()),
        },
        Status::NoAnswer { req } => match ports.command(req) {
            Some(command) => eprintln!(rt; "gevacq: {command}"),
            None => Ok(()),
        },
        _ => Ok(()),
    }
}

/// Prints the help or the version where the words ask for it: `--help`, `-h`, `help`, `--version` or `-V` alone, or
/// `--help` behind a command. None where they don't.
fn print_help(rt: &HostRuntime, words: &[String]) -> Option<io::Result<()>> {
    match words {
        [word] => match word.as_str() {
            "--help" | "-h" | "help" => Some(rt.print(HELP)),
            "--version" | "-V" => Some(rt.print(VERSION)),
            _ => None,
        },
        [command, word] if word.as_str() == "--help" => print_help_on(rt, command.as_str()),
        _ => None,
    }
}

/// Prints the text of a fault on standard error, and the command lines where the words weren't understood.
fn report(rt: &HostRuntime, status: Status) -> io::Result<()> {
    if status == Status::Done {
        return Ok(());
    }
    eprintln!(rt; "gevacq: {status}")?;
    if let Status::Usage { place: _ } = status {
        eprint!(rt; "{USAGE}")?;
    }
    Ok(())
}
