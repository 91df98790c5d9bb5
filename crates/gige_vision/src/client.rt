//! The side that controls a camera: one command at a time, and lists of them over a link.
//!
//! ```
//! let mut client = Client::new();
//! let orders = [Order::ReadReg { address: 0x0934 }];
//! let done = carry_out(&rt, &mut client, &mut link, &mut clock, camera, &orders);
//! ```

/// `Client` is a client of one camera, with one command at a time.
///
/// ```
/// // reads GVCP Capability, the register at 0x0934
/// let mut client = Client::new();
/// let _ = client.submit(&Command::ReadReg(&[0, 0, 0x09, 0x34]), moment);
/// if let Some(message) = client.to_send() {
///     link.send(camera, message)?;
/// }
/// // and for each datagram that came
/// if let Outcome::Acked = client.receive(&bytes, moment) {
///     println!(rt; "{:?}", client.value())?;
/// }
/// ```
pub use control_client::{Client, Outcome, SETUP_SIZE, register_write, setup_write};
pub use gev_control::{
    AcqEnd, Carried, CarriedThrough, Order, Refusal, carry_out, carry_out_all, setup,
};
