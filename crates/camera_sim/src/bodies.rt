//! The bodies of acknowledges (GigE Vision 2.0, READREG_ACK, READMEM_ACK, WRITEREG_ACK and
//! WRITEMEM_ACK).

ghost use Rattle.std.specs.Prelude.{◌≡◌, ◌+◌, ◌*◌, ◌≤◌, ◌++◌, [], ◌∷◌, false, length, take, drop};
ghost use Rattle.byteorder.specs.Endian.{big_bytes};
ghost use Rattle.wire_fields.specs.Fields.{spelled};
ghost use Rattle.gvcp_wire.specs.declared.status.Status.TheVariants.{Success};
ghost use Rattle.camera_machine.specs.Commands.{is_memory_size, status_of};

use crate::done::Done;
use crate::writes::Writes;
use byteorder::{BigEndian, ByteOrder};
use gvcp_wire::Status;
use gvcp_wire::codes::MAX_BODY_SIZE;

// The bytes of the index of a write's acknowledge, and of the reserved field before it.
const INDEX_SIZE: usize = 4;

// The most bytes of memory in a message.
const MAX_MEMORY_SIZE: u16 = 536;

/// Writes a word to a place of the body.
pub(crate) fn put_word(out: &mut [u8; MAX_BODY_SIZE], place: usize, value: u32)
    requires { place + 4 ≤ MAX_BODY_SIZE }
    ensures { take (place + 4) out.new ≡ take place out.old ++ big_bytes 4 value }
{
    BigEndian::write_u32(&mut out[place..place + 4], value);
}

/// Whether so many bytes of memory can be read at once.
pub(crate) fn is_memory_size(count: u16) -> bool
    ensures { result ≡ is_memory_size count }
{
    1 <= count && count <= MAX_MEMORY_SIZE && count % 4 == 0
}

/// A command that was refused.
pub(crate) fn refused(status: Status) -> Done
    ensures status { result.status ≡ status }
    ensures len { result.len ≡ 0 }
    ensures has_granted { result.has_granted ≡ false }
{
    Done {
        status,
        len: 0,
        has_granted: false,
    }
}

/// A command that read words, after which the body has so many bytes.
pub(crate) fn has_read(len: usize) -> Done
    ensures status { result.status ≡ Success }
    ensures len { result.len ≡ len }
    ensures has_granted { result.has_granted ≡ false }
{
    Done {
        status: Status::Success,
        len,
        has_granted: false,
    }
}

fn status_of(refusal: Option<Status>) -> Status
    ensures { result ≡ status_of refusal }
{
    refusal.unwrap_or(Status::Success)
}

/// A command that wrote words. The index in its acknowledge counts what was done, each write so much.
pub(crate) fn has_written(writes: Writes, each: u16, out: &mut [u8; MAX_BODY_SIZE]) -> Done
    requires each { each ≤ 4 }
    requires done { writes.done ≤ 540 }
    ensures status { result.status ≡ status_of writes.refusal }
    ensures len { result.len ≡ 4 }
    ensures body { take 4 out.new ≡ spelled ((2, 0) ∷ (2, each * writes.done) ∷ []) }
    ensures has_granted { result.has_granted ≡ writes.has_granted }
{
    let index = each * writes.done as u16;
    let body: &mut [u8] = out;
    BigEndian::write_u16(body, 0);
    BigEndian::write_u16(&mut body[2..], index);
    Done {
        status: status_of(writes.refusal),
        len: INDEX_SIZE,
        has_granted: writes.has_granted,
    }
}
