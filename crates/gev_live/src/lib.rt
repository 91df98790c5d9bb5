//! Live runs: camera, reader and application as threads that share one board, and with several lanes each of these too.
//!
//! `specs/History.antt` says what the history of a run with one lane is, `specs/Parts.antt` what each worker did,
//! `specs/Endings.antt` which answer each end gives and with which of them the lines are written, and
//! `specs/LiveRun.antt` all of it together. `specs/LanesHistory.antt`, `specs/LanesParts.antt` and
//! `specs/LanesRun.antt` say the same of a run with more.
#![tactic(auto)]

mod answers; // the answer, by the workers' ends
mod counting; // what a run lost, as a line
mod crew; // camera, application, and who acquires, as workers
mod ends; // the links and clocks of a run
mod finishing; // the answer, and the lines that are written
mod lane_passes; // each lane gets a pass
mod lanes_making; // what reader and lanes begin with
mod lanes_reading; // a reader with lanes acquires
mod lanes_running; // the workers of a run with lanes
mod live; // a run over links and clocks that are handed in
mod numbers; // what is asked of a run
mod reading; // a reader acquires
mod running; // the workers of a run with one lane
mod tools; // what the workers begin with
mod writing; // the lines and the last one

pub use answers::{is_told, status_by, taken_of};
pub use crew::{ApplicationSide, CameraSide, work_crew};
pub use ends::Ends;
pub use live::{live_over, live_with_journal};
pub use numbers::Numbers;
pub use writing::write_told;
