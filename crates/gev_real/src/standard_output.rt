ghost use Rattle.std.specs.Prelude.{◌≡◌, ◌≤◌, None, length, IfOk};

use gev_links::{Failed, Sink};
use libc::types::pollfd;
use std::io;
use std::io::Write;

/// How often a write is made whose cause of failure the system's call doesn't tell.
const TRIES: u32 = 16;

/// How many bytes a pipe with room takes without waiting (POSIX, PIPE_BUF, as Linux has it).
const PIECE: usize = 4096;

/// Standard output as a sink. It tells nothing of its bytes. `StandardInput` has an example.
#[derive(Drop)]
pub struct StandardOutput<W: Write + Drop> {
    writer: W,
    faults: u64,
}

impl<W: Write + Drop> StandardOutput<W> {
    /// The sink that writes to this writer, of which nothing has failed yet.
    pub fn new(writer: W) -> StandardOutput<W>
        ensures { result.faults ≡ 0 }
    {
        StandardOutput { writer, faults: 0 }
    }
}

/// Whether standard error takes a piece without waiting. (It stays as it was handed in: its terminal, or its pipe, may be
/// another program's too.)
fn takes_some() -> bool {
    let mut asked = [pollfd {
        fd: libc::STDERR_FILENO,
        events: libc::net::POLLOUT,
        revents: 0,
    }];
    libc::net::poll(&mut asked, 0) > 0
}

/// Writes bytes from the front of these to standard error: how many, none where it takes nothing at once. A write
/// that a signal interrupted is made again.
fn write_piece(rest: &[u8]) -> usize
    ensures { result ≤ length rest.now }
{
    for _ in 0..TRIES {
        if !takes_some() {
            return 0;
        }
        let taken = libc::write(libc::STDERR_FILENO, &rest[..rest.len().min(PIECE)]);
        if taken >= 0 {
            return taken as usize;
        }
    }
    0
}

/// Writes a text to standard error. Where it takes nothing at once the rest is lost.
fn write_error(text: &[u8]) {
    let mut rest = text;
    while !rest.is_empty() {
        let taken = write_piece(rest);
        if taken == 0 {
            return;
        }
        rest = &rest[taken..];
    }
}

/// Writes once; a write that a signal interrupted is made again.
fn write_on<W: Write>(writer: &mut W, bytes: &[u8]) -> io::Result<usize>
    ensures { IfOk result (λ count. count ≤ length bytes.now) }
{
    for _ in 0..u64::MAX {
        match writer.write(bytes) {
            Ok(count) => return Ok(count),
            Err(error) => {
                if error.kind() != io::ErrorKind::Interrupted {
                    return Err(error);
                }
            }
        }
    }
    Ok(0)
}

impl<W: Write + Drop> Sink for StandardOutput<W> {
    ghost written = { λ _. None };

    ghost faults = { λ s. s.faults };

    /// The bytes go to the system at once: nothing is held back for a later call to lose.
    fn write(&mut self, bytes: &[u8]) -> Result<usize, Failed> {
        if let Ok(count) = write_on(&mut self.writer, bytes) {
            if count > 0 || bytes.is_empty() {
                return Ok(count);
            }
        }
        self.faults = self.faults.saturating_add(1);
        Err(Failed)
    }

    /// The lines go to standard error. What it doesn't take at once is lost, so that nothing waits for who reads there.
    fn tell(&mut self, text: &[u8]) {
        write_error(text);
    }
}
