//! What a fill of these rows writes.

ghost use Rattle.std.specs.Prelude.{◌≡◌, length};

use gev_types::{Buf, Record};

/// Writes the image of a block: its first byte is the block's number.
pub fn write_image(buf: &mut Buf, block: u8)
    ensures { length buf.new.bytes ≡ length buf.old.bytes }
{
    buf.put(0, &[block]);
    buf.set_rec(Record {
        block: u64::from(block),
        complete: false,
        larger: false,
        has_leader: false,
        data_len: 0,
        filled: 0,
        image: None,
        account: None,
    });
}
