//! Which call a row names by its word.

use crate::case::{Case, Heard, Row, heard};
use crate::fields::Fields;
use crate::links::{CAMERA, HOST};
use crate::printing::print_unknown;
use crate::received::{handing, lines};
use crate::runs::{scripts, tapes};
use crate::workers::{
    acquiring, applying, controlling, laws, ordering, pacing, reading, serving, telling, turning,
};
use anyhow::Result;
use gev_types::Peer;
use std::sync::Wait;

/// Prints the answer of a row on frames, or of any other one.
pub fn answer<R: Wait>(rt: &HostRuntime, handles: &R, row: &str) -> Result<()> {
    let (word, rest) = row.split_once(' ').unwrap_or((row, ""));
    let mut fields = Fields::new(rest);
    match word {
        "frame" => lines::frame(rt, &mut fields),
        "receive" => lines::receive(rt, &mut fields),
        "hand" => handing::hand_out(rt, handles, 0, &mut fields),
        "tell" => handing::tell(rt, handles, &mut fields),
        _ => answer_case(rt, handles, word, &mut fields),
    }
}

/// Reads the fields of a worker's row, a script's or a tape's, and prints its answer.
fn answer_case<R: Wait>(
    rt: &HostRuntime,
    handles: &R,
    word: &str,
    fields: &mut Fields<'_>,
) -> Result<()> {
    let mut row = Row::new(rt.alloc());
    row.read(rt.alloc(), fields)?;
    answer_row(rt, handles, word, &row)
}

/// The same, by what is heard on the control link or the camera's.
fn answer_row<R: Wait>(rt: &HostRuntime, handles: &R, word: &str, row: &Row) -> Result<()> {
    let control = heard(rt.alloc(), row.control(), peer_of(word))?;
    answer_hearing(rt, handles, word, row, control.as_slice())
}

/// Who is heard: what a camera hears comes from the host, and all else from the camera.
fn peer_of(word: &str) -> Peer {
    if word == "serve" || word == "obey" {
        HOST
    } else {
        CAMERA
    }
}

/// The same, by what is heard on the stream's link too.
fn answer_hearing<'x, R: Wait>(
    rt: &HostRuntime,
    handles: &R,
    word: &str,
    row: &'x Row,
    control: Heard<'x>,
) -> Result<()> {
    let stream = heard(rt.alloc(), row.stream(), CAMERA)?;
    call_run(rt, handles, word, &row.case(control, stream.as_slice()))
}

/// Makes a call of a script or a tape, or one of a worker.
fn call_run<R: Wait>(rt: &HostRuntime, handles: &R, word: &str, case: &Case<'_>) -> Result<()> {
    match word {
        "tape" => tapes::hear_some(rt, case),
        "script" => scripts::write_turns(rt, case),
        _ => call_control(rt, handles, word, case),
    }
}

/// Makes a call of the control part, or of what stands behind it.
fn call_control<R: Wait>(rt: &HostRuntime, handles: &R, word: &str, case: &Case<'_>) -> Result<()> {
    match word {
        "setup" => controlling::set_up(rt, handles, case),
        "turn" => controlling::make_turn(rt, case),
        "sends" => controlling::send_some(rt, case),
        "laws" => laws::call_all(rt),
        _ => call_orders(rt, handles, word, case),
    }
}

/// Makes a call of a list of orders, or of what stands behind them.
fn call_orders<R: Wait>(rt: &HostRuntime, handles: &R, word: &str, case: &Case<'_>) -> Result<()> {
    match word {
        "orders" => ordering::carry(rt, handles, case),
        "through" => ordering::carry_through(rt, handles, case),
        "beat" => ordering::tell_heartbeat(rt, case),
        _ => call_reader(rt, handles, word, case),
    }
}

/// Makes a call of a reader, or of what stands behind it.
fn call_reader<R: Wait>(rt: &HostRuntime, handles: &R, word: &str, case: &Case<'_>) -> Result<()> {
    match word {
        "acquire" => acquiring::acquire_some(rt, handles, case),
        "paces" => pacing::pace_some(rt, handles, case),
        "turns" => turning::read_some(rt, handles, case),
        "read" => reading::read_some(rt, handles, case),
        _ => call_worker(rt, handles, word, case),
    }
}

/// Makes a call of a receiver, a camera or the application, if the word is one of theirs.
fn call_worker<R: Wait>(rt: &HostRuntime, handles: &R, word: &str, case: &Case<'_>) -> Result<()> {
    match word {
        "served" => telling::serve_some(rt, handles, case),
        "told" => telling::tell_one(rt, handles, case),
        "serve" => serving::serve_some(rt, case),
        "obey" => serving::obey_one(rt, case),
        "apply" => applying::apply_some(rt, handles, case),
        _ => print_unknown(rt),
    }
}
