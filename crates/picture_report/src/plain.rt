//! An image whose bytes are its picture's pixels as they lie in the buffer.

ghost use Rattle.std.specs.Prelude.{◌≡◌, ◌≤◌, ◌*◌, ◌++◌, true, length, take, IfSome, OnOk, OnErr};
ghost use Rattle.gev_links.specs.Faults.{Rose};
ghost use Rattle.gev_links.specs.Told.{Appends, WritesFront};
ghost use Rattle.frame_pictures.specs.declared.samples.Samples.TheVariants.{Grey8};
ghost use Rattle.frame_pictures.specs.Pictures.{rows_text};

use frame_pictures::Samples;
use gev_links::{Failed, Sink, write_all};
use gev_types::ImageInfo;

/// Whether a pixel is a byte that is written as it is, and no bytes stand between two rows.
fn is_plain(samples: Samples, info: ImageInfo) -> bool
    ensures samples { result ≡ true → samples ≡ Grey8 }
    ensures padding { result ≡ true → info.padding_x ≡ 0 }
{
    match samples {
        Samples::Grey8 => info.padding_x == 0,
        _ => false,
    }
}

/// The pixels of an image of these bytes, where they are as they are written, and all there.
pub(crate) fn plain_pixels(samples: Samples, info: ImageInfo, image: &[u8]) -> Option<&[u8]>
    ensures { IfSome result (λ pixels. pixels.now ≡ rows_text samples info image.now info.rows) }
{
    if !is_plain(samples, info) {
        return None;
    }
    let count = u64::from(info.rows) * u64::from(info.size_x);
    if count > image.len() as u64 {
        return None;
    }
    Some(&image[..count as usize])
}

/// Writes two texts, one behind the other.
pub(crate) fn write_both<K: Sink>(first: &[u8], second: &[u8], sink: &mut K) -> Result<(), Failed>
    ensures written { OnOk result (Appends (K.written sink.old) (K.written sink.new) (first.now ++ second.now)) }
    ensures no_fault { OnOk result (K.faults sink.new ≡ K.faults sink.old) }
    ensures front { OnErr result (WritesFront (K.written sink.old) (K.written sink.new) (first.now ++ second.now)) }
    ensures failed { OnErr result (Rose (K.faults sink.old) (K.faults sink.new)) }
{
    write_all(sink, first)?;
    write_all(sink, second)
}
