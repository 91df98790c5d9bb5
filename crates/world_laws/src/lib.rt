//! The law of the world: what holds of every schedule of one camera, its client, a receiver and its
//! board, whatever the network loses, repeats or reorders, and that a soak run ends.
//!
//! `specs/Schedule.antt` says what may happen, and what it does to the client and the camera and to the
//! receiver. `specs/Images.antt` says which frames stand behind the packets, and what a buffer holds of
//! them. `specs/RunEvents.antt` has the events of a soak run, and `specs/TakeLines.antt` the take lines
//! in its text.
//!
//! The host of a soak run is a receiver, its board and its application, as one machine that computes:
//! `specs/Receiver.antt` has it by the acts of a replay script's lines, so what holds of the trace of such a
//! script holds of this host. The functions of `laws` say what follows, those of `end_laws` that a run ends, and how
//! many rounds and commands it has at most. There is no code here.
#![tactic(auto)]

mod end_laws;
mod laws;

pub use end_laws::{
    commands_are_few, setup_ends, soak_commands_act_once, soak_packets_are_of_its_frames,
    soak_run_ends, soak_run_has_a_text,
};
pub use laws::{
    commands_of_a_world_act_once, given_packets_are_heard, heard_images_are_true,
    images_are_of_made_frames, images_of_a_run_are_true, images_of_a_world_are_true,
    packets_are_of_made_frames, run_is_a_world, schedule_has_a_trace, soak_is_an_application,
    text_of_a_run_has_take_lines, trace_of_a_world_keeps_promises,
};
