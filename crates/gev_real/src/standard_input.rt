ghost use Rattle.std.specs.Prelude.{◌≡◌, ◌≤◌, None, length, IfOk};

use gev_links::{Failed, Source};
use libc::types::pollfd;
use std::io;
use std::io::Read;
use std::os::fd::{AsRawFd, RawFd};

/// How many bytes are dropped at a time.
const PIECE: usize = 4096;

/// How often that is done in one look.
const PIECES: u32 = 16;

/// Standard input as a source, or another input that has a descriptor. It tells nothing of its bytes.
///
/// ```
/// let mut source = StandardInput::new(rt.reader());
/// let mut sink = StandardOutput::new(io::writer(&rt));
/// let status = plain_top(rt.alloc(), words, &mut source, &mut sink);
/// ```
#[derive(Drop)]
pub struct StandardInput<R: Read + AsRawFd + Drop> {
    reader: R,
    faults: u64,
}

impl<R: Read + AsRawFd + Drop> StandardInput<R> {
    /// The source that reads from this reader, of which nothing has failed yet.
    pub fn new(reader: R) -> StandardInput<R>
        ensures { result.faults ≡ 0 }
    {
        StandardInput { reader, faults: 0 }
    }
}

/// Whether a read of this descriptor gives something at once: bytes, the end or a fault.
fn is_readable(descriptor: RawFd) -> bool {
    let mut asked = [pollfd {
        fd: descriptor,
        events: libc::net::POLLIN,
        revents: 0,
    }];
    libc::net::poll(&mut asked, 0) > 0
}

/// Reads once; a read that a signal interrupted is made again.
fn read_on<R: Read>(reader: &mut R, out: &mut [u8]) -> io::Result<usize>
    ensures { IfOk result (λ count. count ≤ length out.old) }
{
    for _ in 0..u64::MAX {
        match reader.read(out) {
            Ok(count) => return Ok(count),
            Err(error) => {
                if error.kind() != io::ErrorKind::Interrupted {
                    return Err(error);
                }
            }
        }
    }
    Ok(0)
}

/// Reads a piece and drops it: whether there was one. An input that can't be read has none.
fn drops_piece<R: Read>(reader: &mut R) -> bool {
    let mut dropped = [0; PIECE];
    read_on(reader, &mut dropped).unwrap_or(0) > 0
}

/// Drops what is there: whether the input has ended.
fn drops_to_the_end<R: Read + AsRawFd>(reader: &mut R) -> bool {
    for _ in 0..PIECES {
        if !is_readable(reader.as_raw_fd()) {
            return false;
        }
        if !drops_piece(reader) {
            return true;
        }
    }
    false
}

impl<R: Read + AsRawFd + Drop> Source for StandardInput<R> {
    ghost left = { λ _. None };

    ghost faults = { λ s. s.faults };

    fn read(&mut self, out: &mut [u8]) -> Result<usize, Failed> {
        match read_on(&mut self.reader, out) {
            Ok(count) => Ok(count),
            Err(_) => {
                self.faults = self.faults.saturating_add(1);
                Err(Failed)
            }
        }
    }

    /// A look takes at most so many bytes as a pipe holds. An input that can't be read has ended.
    fn has_ended(&mut self) -> bool {
        drops_to_the_end(&mut self.reader)
    }
}
