//! The wait for the first leader of a camera's stream (GigE Vision 2.0, GVSP image leader).
//!
//! What waits in the stream's link is looked at: a leader that fits stays for the next receive, everything else is
//! received and dropped. Meanwhile the control of the camera is kept. `specs/Leaders.antt` says which datagram is such a
//! leader and what it tells, `specs/Waiting.antt` what the wait does, over links and clocks that tell. No call takes memory.
#![tactic(auto)]

mod beating; // control, kept
mod leaders; // leaders that fit
mod leading; // what a leader tells
mod looking; // a look at the stream
mod no_leader; // why none came
mod patience; // how it's waited
mod silence; // when nothing came for long enough
mod waiting; // the wait

pub use beating::beat_cause;
pub use leaders::first_leader_in;
pub use leading::FirstLeader;
pub use no_leader::NoLeader;
pub use patience::Patience;
pub use silence::{Pace, is_over, next_pace};
pub use waiting::await_leader;
