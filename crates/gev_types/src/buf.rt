ghost use Rattle.std.specs.Prelude.{◌≡◌, ◌≤◌, length, replicate, IfOk};
ghost use Rattle.gev_types.specs.Filling.{empty_record};
ghost use Rattle.gev_types.specs.Limits.{max_buffer_size};
ghost use Rattle.gev_types.specs.Placing.{put_at};

use crate::block_record::Record;
use crate::memory::NoMemory;
use std::alloc::Global;
use std::marker::Model;

/// An image buffer: 1 byte to 64 MiB, and the record of the block that it holds.
///
/// Contracts see its bytes and its record, whose `data_len` and `filled` are at most its size.
#[derive(Drop)]
pub struct Buf {
    bytes: Vec<u8>,
    rec: Record,
}

impl Model for Buf {
    ghost use Rattle.gev_types.specs.Filling.{Filling};
    ghost use Rattle.gev_types.specs.BufInside.{IsBuf};

    ghost Value = { Filling };

    ghost view = { λ b. record { bytes = b.bytes.items; rec = b.rec } };

    ghost invariant = { λ b. IsBuf b.bytes.items b.rec };
}

impl Buf {
    /// A buffer of `size` bytes, all of them zero, with the empty record.
    pub fn new(alloc: Global, size: u32) -> Result<Buf, NoMemory>
        requires some { 1 ≤ size }
        requires in_limits { size ≤ max_buffer_size }
        ensures bytes { IfOk result (λ buf. buf.bytes ≡ replicate size 0) }
        ensures rec { IfOk result (λ buf. buf.rec ≡ empty_record) }
    {
        let bytes = vec![in alloc; 0u8; size as usize]?;
        Ok(Buf {
            bytes,
            rec: Record::default(),
        })
    }

    /// The bytes, all of them, whatever the record says of the image in them.
    pub fn bytes(&self) -> &[u8]
        ensures value { result.now ≡ self.now.bytes }
        ensures some { 1 ≤ length self.now.bytes }
        ensures in_limits { length self.now.bytes ≤ max_buffer_size }
    {
        self.bytes.as_slice()
    }

    /// What is known of the block that the buffer holds.
    pub fn rec(&self) -> Record
        ensures value { result ≡ self.now.rec }
        ensures data_len { result.data_len ≤ length self.now.bytes }
        ensures filled { result.filled ≤ length self.now.bytes }
    {
        self.rec
    }

    /// Writes the piece from position `at` on, as far as the buffer goes. The record stays.
    pub fn put(&mut self, at: u32, piece: &[u8])
        ensures bytes { self.new.bytes ≡ put_at self.old.bytes at piece.now }
        ensures rec { self.new.rec ≡ self.old.rec }
    {
        let start = at as usize;
        if start >= self.bytes.len() {
            return;
        }
        let room = self.bytes.len() - start;
        let count = room.min(piece.len());
        self.bytes[start..start + count].copy_from_slice(&piece[..count]);
    }

    /// Makes `count` bytes from position `at` on zero, as far as the buffer goes. The record stays.
    pub fn zero(&mut self, at: u32, count: u32)
        ensures bytes { self.new.bytes ≡ put_at self.old.bytes at (replicate count 0) }
        ensures rec { self.new.rec ≡ self.old.rec }
    {
        zero_some(self.bytes.as_mut_slice(), at as usize, count as usize);
    }

    /// Makes every byte zero and the record empty.
    pub fn clear(&mut self)
        ensures bytes { self.new.bytes ≡ replicate (length self.old.bytes) 0 }
        ensures rec { self.new.rec ≡ empty_record }
    {
        self.bytes.fill(0);
        self.rec = Record::default();
    }

    /// Puts another record in the place of the buffer's. The bytes stay.
    pub fn set_rec(&mut self, rec: Record)
        requires data_len { rec.data_len ≤ length self.old.bytes }
        requires filled { rec.filled ≤ length self.old.bytes }
        ensures bytes { self.new.bytes ≡ self.old.bytes }
        ensures rec { self.new.rec ≡ rec }
    {
        self.rec = rec;
    }
}

/// Makes `count` bytes from position `at` on zero, as far as these bytes go.
fn zero_some(bytes: &mut [u8], at: usize, count: usize)
    ensures { bytes.new ≡ put_at bytes.old at (replicate count 0) }
{
    if at >= bytes.len() {
        return;
    }
    let count = (bytes.len() - at).min(count);
    zero_all(&mut bytes[at..at + count]);
}

/// Makes each of these bytes zero.
fn zero_all(bytes: &mut [u8])
    ensures { bytes.new ≡ replicate (length bytes.old) 0 }
{
    bytes.fill(0);
}
