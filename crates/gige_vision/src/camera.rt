//! A camera that is simulated: it answers control messages, sends test images, and sends packets again.

/// `Camera` is a simulated camera.
///
/// ```
/// // grey images of 8 bits, of which the last four can be sent again
/// let shape = Shape { pixel: 0x0108_0001, size_x: 640, size_y: 480 };
/// let mut camera = Camera::new(rt.alloc(), 1, shape, 4)?;
/// let mut out = [0; MESSAGE_SIZE];
/// if let Some(len) = camera.command(sender, &bytes, moment, &mut out) {
///     control.send(sender, &out[..len])?;
/// }
/// let mut packet = [0; PACKET_ROOM];
/// if let Some((receiver, len)) = camera.next_packet(&mut packet) {
///     stream.send(receiver, &packet[..len])?;
/// }
/// ```
pub use camera_sim::{Camera, MESSAGE_SIZE, PACKET_ROOM};
pub use gev_types::Shape;
