//! What a filled buffer holds: its bytes, its record, and its picture.
//!
//! ```
//! let record = buf.rec();
//! if record.complete {
//!     write_picture(rt.alloc(), record, buf.bytes(), &mut sink)?;
//! }
//! ```

/// `Samples` is how the pixels of a picture lie in the rows of a buffer.
///
/// ```
/// match samples_of(image.pixel) {
///     Some(samples) => println!(rt; "{samples:?}, {} bits a pixel", pixel_bits(samples))?,
///     None => println!(rt; "the format {:08x} isn't drawn", image.pixel)?,
/// }
/// ```
pub use frame_pictures::{NoPicture, Samples, pixel_bits, samples_of};
/// `Buf` is a buffer: its bytes, with what is known of them.
///
/// ```
/// let mut buf = Buf::new(rt.alloc(), 307_200)?;
/// buf.put(640, &row);
/// println!(rt; "{} of {} bytes", buf.rec().filled, buf.bytes().len())?;
/// ```
pub use gev_types::{BlockAccount, Buf, Cause, ImageInfo, Lost, MAX_BUFFER_SIZE, Reasons, Record};
pub use picture_report::{PictureStop, write_picture};
