ghost use Rattle.std.specs.Prelude.{◌≡◌, ◌++◌, OnOk, OnErr};
ghost use Rattle.frame_writing.specs.FrameLine.{told_image, digest_word, image_fields, account_fields, frame_line};
ghost use Rattle.frame_writing.specs.Pieces.{piece_text};

use crate::adding::add;
use crate::piece::Piece;
use camera_words::LineDigest;
use gentl_types::BufferId;
use gev_types::{BlockAccount, Buf, ImageInfo, NoMemory};
use sha2::{Digest, Sha256};

/// What the record tells of the image; zeros where no leader was kept.
fn told_image(image: Option<ImageInfo>) -> ImageInfo
    ensures { result ≡ told_image image }
{
    match image {
        Some(info) => info,
        None => ImageInfo {
            timestamp: 0,
            pixel: 0,
            size_x: 0,
            size_y: 0,
            rows: 0,
            offset_x: 0,
            offset_y: 0,
            padding_x: 0,
            padding_y: 0,
        },
    }
}

/// Adds the line of a frame that the application took: the buffer's id, its record, the digest of its image, the image's
/// width and height in pixels, pixel format and time in the camera's ticks, and what became of its block. Without a digest
/// none is computed.
pub fn add_frame(
    out: &mut Vec<u8>,
    id: BufferId,
    buf: &Buf,
    digest: LineDigest,
) -> Result<(), NoMemory>
    ensures line { OnOk result (out.new.items ≡ out.old.items ++ frame_line digest id buf.now) }
    ensures unchanged { OnErr result (out.new.items ≡ out.old.items) }
{
    let start = out.len();
    add_image(out, id, buf, digest)?;
    let added = add_account(out, buf.rec().account);
    if added.is_err() {
        out.truncate(start);
    }
    added
}

/// Adds the line's fields of the image, with its digest or without.
fn add_image(out: &mut Vec<u8>, id: BufferId, buf: &Buf, digest: LineDigest) -> Result<(), NoMemory>
    ensures text { OnOk result (out.new.items ≡ out.old.items ++ image_fields id buf.now (told_image buf.now.rec.image) (digest_word digest buf.now)) }
    ensures unchanged { OnErr result (out.new.items ≡ out.old.items) }
{
    match digest {
        LineDigest::Sha256 => {
            let image = &buf.bytes()[..buf.rec().data_len as usize];
            add_fields(out, id, buf, Piece::Hex(&Sha256::digest(image)))
        }
        LineDigest::Omitted => add_fields(out, id, buf, Piece::Text(b"-")),
    }
}

/// Adds the line's fields of the image, with this for its digest.
fn add_fields(out: &mut Vec<u8>, id: BufferId, buf: &Buf, digest: Piece<'_>) -> Result<(), NoMemory>
    ensures text { OnOk result (out.new.items ≡ out.old.items ++ image_fields id buf.now (told_image buf.now.rec.image) (piece_text digest.entry)) }
    ensures unchanged { OnErr result (out.new.items ≡ out.old.items) }
{
    let rec = buf.rec();
    let info = told_image(rec.image);
    add(
        out,
        &[
            Piece::Text(b"take "),
            Piece::Number(u64::from(id.place)),
            Piece::Text(b"."),
            Piece::Number(u64::from(id.generation)),
            Piece::Text(b" block="),
            Piece::Number(rec.block),
            Piece::Text(b" complete="),
            Piece::Flag(rec.complete),
            Piece::Text(b" larger="),
            Piece::Flag(rec.larger),
            Piece::Text(b" leader="),
            Piece::Flag(rec.has_leader),
            Piece::Text(b" len="),
            Piece::Number(u64::from(rec.data_len)),
            Piece::Text(b" filled="),
            Piece::Number(u64::from(rec.filled)),
            Piece::Text(b" sha256="),
            digest,
            Piece::Text(b" width="),
            Piece::Number(u64::from(info.size_x)),
            Piece::Text(b" height="),
            Piece::Number(u64::from(info.rows)),
            Piece::Text(b" pixel=0x"),
            Piece::Code(info.pixel),
            Piece::Text(b" time="),
            Piece::Number(info.timestamp),
        ],
    )
}

/// Adds the line's fields of what became of the block, and the line feed.
fn add_account(out: &mut Vec<u8>, account: Option<BlockAccount>) -> Result<(), NoMemory>
    ensures text { OnOk result (out.new.items ≡ out.old.items ++ account_fields account) }
    ensures unchanged { OnErr result (out.new.items ≡ out.old.items) }
{
    match account {
        Some(account) => add(
            out,
            &[
                Piece::Text(b" cause="),
                Piece::Cause(account.cause),
                Piece::Text(b" missing="),
                Piece::Number(u64::from(account.lost.ids)),
                Piece::Text(b" why="),
                Piece::Why(account.why),
                Piece::Text(b" ids="),
                Piece::Ids(&account.lost),
                Piece::Text(b"\n"),
            ],
        ),
        None => add(out, &[Piece::Text(b" cause=- missing=0 why=- ids=-\n")]),
    }
}
