//! What words ask for.

use super::running::list;
use camera_words::{Access, RegisterWords, Settings};
use gev_top::{Errand, read_errand};
use std::alloc::Global;
use std::io;

/// Prints what the words ask for, or the place of the first that isn't understood.
pub(crate) fn print_reading(rt: &impl Print, alloc: Global, words: &[&str]) -> io::Result<()> {
    rt.print(" = ")?;
    match read_errand(list(alloc, words)?.as_slice()) {
        Ok(errand) => print_errand(rt, &errand)?,
        Err(place) => print!(rt; "not at {place}")?,
    }
    rt.println("")
}

/// Prints what is asked for.
fn print_errand(rt: &impl Print, errand: &Errand) -> io::Result<()> {
    match errand {
        Errand::Plain(command) => print!(rt; "{command:?}"),
        Errand::Live(numbers) => print!(rt; "Live {numbers:?}"),
        Errand::Record(numbers) => print!(rt; "Record {numbers:?}"),
        Errand::Discover(address) => print!(rt; "Discover {address:08x}"),
        Errand::Description(address) => print!(rt; "Description {address:08x}"),
        Errand::Simulate(asked) => print!(rt; "{asked:?}"),
        Errand::Receive(settings) => print_settings(rt, settings),
        Errand::Register(asked) => print_accesses(rt, asked),
    }
}

/// Prints what `receive` is asked for: the writes come last, each behind its stage.
fn print_settings(rt: &impl Print, settings: &Settings) -> io::Result<()> {
    print_buffers(rt, settings)?;
    print_times(rt, settings)?;
    print!(rt;
        " as {:?} until input {} progress {}",
        settings.output, settings.until_input_ends, settings.progress
    )?;
    print_writes(rt, settings)
}

/// Prints how many frames of which camera, in which packets and buffers.
fn print_buffers(rt: &impl Print, settings: &Settings) -> io::Result<()> {
    print!(rt;
        "Receive {} of {:08x} packet {} buffers {} bytes {:?}",
        settings.frames, settings.camera, settings.packet, settings.buffers, settings.bytes
    )
}

/// Prints how blocks are kept, and for how long.
fn print_times(rt: &impl Print, settings: &Settings) -> io::Result<()> {
    print!(rt;
        " mode {} window {} timeout {}",
        settings.mode, settings.window, settings.timeout
    )?;
    print!(rt;
        " age {} rounds {} silence {}",
        settings.age, settings.rounds, settings.silence
    )
}

/// Prints the writes, each behind its stage.
fn print_writes(rt: &impl Print, settings: &Settings) -> io::Result<()> {
    for write in settings.writes.as_slice() {
        print!(rt;
            " {:?} {:08x} {:08x}",
            write.stage, write.register, write.value
        )?;
    }
    Ok(())
}

/// Prints what `register` is asked for: the camera, and its accesses in their order.
fn print_accesses(rt: &impl Print, asked: &RegisterWords) -> io::Result<()> {
    print!(rt; "Register of {:08x}", asked.camera)?;
    for access in asked.accesses.as_slice() {
        match access {
            Access::Read { register } => print!(rt; " {register:08x}")?,
            Access::Write { register, value } => print!(rt; " {register:08x}={value:08x}")?,
        }
    }
    Ok(())
}
