use gev_links::{Clock, Link};
use std::marker::Model;

/// What is of the outside in a live run: the links of the camera, of the stream and of the control channel, and
/// the clocks of the camera, of the host's reader and of the application. Clauses see what these tell beside them.
#[derive(Drop)]
pub struct Ends<L: Link, S: Link, C: Clock> {
    /// The camera's link.
    pub camera: L,
    /// The host's link for the stream.
    pub stream: S,
    /// The host's link for the control channel.
    pub control: L,
    /// The camera's clock.
    pub camera_clock: C,
    /// The reader's clock.
    pub host_clock: C,
    /// The application's clock.
    pub app_clock: C,
}

impl<L: Link, S: Link, C: Clock> Model for Ends<L, S, C> {
    ghost use Rattle.gev_live.specs.Told.{EndsState, told_by};

    ghost Value = { EndsState L S C };

    ghost view = { λ e. record {
      camera = e.camera;
      stream = e.stream;
      control = e.control;
      camera_clock = e.camera_clock;
      host_clock = e.host_clock;
      app_clock = e.app_clock;
      told = told_by L.received L.sent L.faults S.received S.sent S.faults C.told e.camera e.stream e.control e.camera_clock e.host_clock e.app_clock;
    } };
}
