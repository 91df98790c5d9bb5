//! What a row asks for, and its answer.

use crate::answer::Answer;
use crate::boards::Boards;
use crate::call::{Act, act_of};
use crate::words::{byte, word};
use crate::{application, errors, handles};
use anyhow::Result;
use std::alloc::{AllocError, Global};
use std::sync::Wait;
use std::thread::Threads;

/// What a row asks for.
#[derive(Clone, Copy)]
enum Row {
    NewBoards,
    /// A wait of the host of the shared board.
    Wait,
    /// What an application on another thread knows of the images that came.
    Frames,
    /// What an actor does on both boards.
    Act(u8, Act),
    /// What a handle stands for.
    Level,
    /// What is asked of values.
    Alone,
}

/// The act of a row, and the number of its actor.
fn act_row(words: &[&str]) -> Option<Row> {
    match byte(words, 0) {
        Some(number) => Some(Row::Act(number, act_of(words.get(1..)?)?)),
        None => Some(Row::Act(0, act_of(words)?)),
    }
}

/// What the row of these words asks for.
fn row_of(words: &[&str]) -> Row {
    match word(words, 0) {
        Some("board") => Row::NewBoards,
        Some("wait") => Row::Wait,
        Some("frames") => Row::Frames,
        Some("level") => Row::Level,
        _ => act_row(words).unwrap_or(Row::Alone),
    }
}

/// The text of one answer.
fn one(alloc: Global, answer: Answer) -> Result<String, AllocError> {
    format!(in alloc; "{answer}")
}

/// The text of an answer, if there is one.
fn any(alloc: Global, answer: Option<Answer>) -> Result<Option<String>> {
    match answer {
        Some(answer) => Ok(Some(one(alloc, answer)?)),
        None => Ok(None),
    }
}

/// The text of the answers of both boards, once where they are alike.
fn both(alloc: Global, plain: Answer, shared: Answer) -> Result<String, AllocError> {
    let plain = one(alloc, plain)?;
    let shared = one(alloc, shared)?;
    if plain.as_str() == shared.as_str() {
        return Ok(plain);
    }
    format!(in alloc; "{plain}, and {shared} where shared")
}

/// The answer of a row on values, if it is one.
fn alone(words: &[&str]) -> Option<Answer> {
    match word(words, 0)? {
        "error" => errors::error(words),
        "loan-info" => errors::record_info(words),
        _ => None,
    }
}

/// Begins two boards anew.
fn renew(alloc: Global, boards: &mut Boards) -> Result<Option<String>> {
    *boards = Boards::new(alloc)?;
    Ok(Some(String::from_str(alloc, "new")?))
}

/// The answer of a wait of the host of the shared board.
fn wait<R: Wait>(
    rt: &R,
    alloc: Global,
    boards: &mut Boards,
    words: &[&str],
) -> Result<Option<String>> {
    let answer = boards.wait(rt, alloc, words)?;
    any(alloc, answer)
}

/// The answer of a row that is an actor's act.
fn act<R: Wait>(
    rt: &R,
    alloc: Global,
    boards: &mut Boards,
    number: u8,
    act: Act,
) -> Result<Option<String>> {
    let (plain, shared) = boards.act(rt, alloc, number, act);
    Ok(Some(both(alloc, plain, shared)?))
}

/// The answer of a row of these words, or None where it isn't understood.
fn answer_row<R: Threads + Wait + Sync>(
    rt: &R,
    alloc: Global,
    boards: &mut Boards,
    words: &[&str],
) -> Result<Option<String>> {
    match row_of(words) {
        Row::NewBoards => renew(alloc, boards),
        Row::Wait => wait(rt, alloc, boards, words),
        Row::Frames => Ok(Some(application::frames(rt, alloc, words)?)),
        Row::Level => Ok(handles::level(alloc, words)),
        Row::Act(number, asked) => act(rt, alloc, boards, number, asked),
        Row::Alone => any(alloc, alone(words)),
    }
}

/// The answer of a row, or None where it isn't understood.
pub fn answer_line<R: Threads + Wait + Sync>(
    rt: &R,
    alloc: Global,
    boards: &mut Boards,
    row: &str,
) -> Result<Option<String>> {
    let words: Vec<&str> = row.split_whitespace().collect(alloc)?;
    answer_row(rt, alloc, boards, &words)
}
