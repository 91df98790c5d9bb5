//! What every run of the receiver promises, and what live runs and runs over a camera's frames promise beyond that. The
//! functions only carry their statements: there is no code that runs.
//!
//! `specs/Headline.antt` has the headline, in one definition for replayed scripts and for live runs, over the history of a
//! board and over who fills buffers for which acquisition.
//!
//! Of live runs `specs/Promises.antt` has the promises of one lane, over what each worker did (`gev_live`), and
//! `specs/LanesPromises.antt` those of more, with one acquisition machine a lane. `specs/Moves.antt` has what is sent and
//! heard over the control link, turn by turn, `specs/ClientCauses.antt` why a reader ended as its client did, and
//! `specs/Causes.antt` and `specs/LanesCauses.antt` why the reader of a live run gave up or was refused.
//!
//! Of runs over a camera's frames `specs/FramesRun.antt` has the frames' part by the whole history of its board,
//! `specs/ReceivePromises.antt` what it keeps (`gev_receive`), and `specs/Meaning.antt` what its answer says and what was
//! written. `specs/Acts.antt` has each act of the client at the control link, `specs/ReceiveCauses.antt` the causes in their
//! words, `specs/Commands.antt` the commands, `specs/Silence.antt` how long a camera was silent, `specs/Stopping.antt` the stop
//! by which a camera is let go, `specs/Reception.antt` what of all this a whole run keeps, `specs/Received.antt` its buffers
//! and its stop, and `specs/Written.antt` its lines.
#![tactic(auto)]

mod client_causes; // why a reader ended as its client did
mod headline_laws; // the headline of traces, and of any history
mod lanes_laws; // runs with lanes
mod laws; // runs with one lane
mod receive_laws; // runs over a camera's frames

pub use client_causes::{no_answer_is_unanswered, refused_is_read};
pub use headline_laws::{blocks_hold_frames, runs_keep_headline, traces_keep_headline};
pub use lanes_laws::{lane_runs_keep_promises, lanes_packets_are_sent};
pub use laws::live_runs_keep_promises;
pub use receive_laws::{
    commands_wait_for_answers, frames_runs_keep_promises, leaving_makes_the_stop,
    receptions_have_causes, receptions_keep_promises, runs_have_histories,
};
