//! The call that a row names.

use crate::{base, bitmaps, control, images, links, requests, samples, standard, stream};
use std::alloc::Global;
use std::str::SplitWhitespace;

/// The answer to a row, or None where it isn't understood.
pub fn answer(alloc: Global, row: &str) -> Option<String> {
    let mut words = row.split_whitespace();
    let call = words.next()?;
    of_base(alloc, call, &mut words)
}

/// The answer to a call of sizes, buffers and numbers, or to one of the others.
fn of_base(alloc: Global, call: &str, words: &mut SplitWhitespace<'_>) -> Option<String> {
    match call {
        "frame_size" => base::frame_size(alloc, words),
        "buffer" => base::buffer(alloc, words),
        "reversed" => base::reversed(alloc, words),
        "field" => base::field(alloc, words),
        "texts" => base::texts(alloc),
        _ => of_stream(alloc, call, words),
    }
}

/// The answer to a call of packets of the stream, or to one of those that follow.
fn of_stream(alloc: Global, call: &str, words: &mut SplitWhitespace<'_>) -> Option<String> {
    match call {
        "packet" => stream::packet(alloc, words),
        "parts" => stream::parts(alloc, words),
        "rewritten" => stream::rewritten(alloc, words),
        "notice" => stream::notice(alloc, words),
        "flags" => stream::flags(alloc, words),
        _ => of_commands(alloc, call, words),
    }
}

/// The answer to a call of commands, or to one of those that follow.
fn of_commands(alloc: Global, call: &str, words: &mut SplitWhitespace<'_>) -> Option<String> {
    match call {
        "command" => control::command(alloc, words),
        "is_command" => control::is_command(alloc, words),
        "read_register" => control::read_register(alloc, words),
        "read_memory" => control::read_memory(alloc, words),
        "discovery" => control::discovery(alloc, words),
        _ => of_acknowledges(alloc, call, words),
    }
}

/// The answer to a call of acknowledges and of what is asked for again, or to one of those that follow.
fn of_acknowledges(alloc: Global, call: &str, words: &mut SplitWhitespace<'_>) -> Option<String> {
    match call {
        "acknowledge" => control::acknowledge(alloc, words),
        "write_acknowledge" => control::write_acknowledge(alloc, words),
        "status" => control::status(alloc, words),
        "asked" => control::asked(alloc, words),
        "resend" => control::resend(alloc, words),
        _ => of_standard(alloc, call, words),
    }
}

/// The answer to a call of standard identifiers, or to one of those that follow.
fn of_standard(alloc: Global, call: &str, words: &mut SplitWhitespace<'_>) -> Option<String> {
    match call {
        "widened" => standard::widened(alloc, words),
        "blocks" => standard::blocks(alloc, words),
        "narrow" => standard::narrow(alloc, words),
        "standard_resend" => standard::standard_resend(alloc, words),
        _ => of_links(alloc, call, words),
    }
}

/// The answer to a call of requests on a link, of links that stand on links, or of one of those that follow.
fn of_links(alloc: Global, call: &str, words: &mut SplitWhitespace<'_>) -> Option<String> {
    match call {
        "control_request" => requests::control_request(alloc, words),
        "sent_requests" => requests::sent_requests(alloc, words),
        "only_from" => links::only_from(alloc, words),
        "wide_link" => links::wide_link(alloc, words),
        _ => of_blocks(alloc, call, words),
    }
}

/// The answer to a call of sets of packet ids, of pixels and of images.
fn of_blocks(alloc: Global, call: &str, words: &mut SplitWhitespace<'_>) -> Option<String> {
    match call {
        "bitmap" => bitmaps::bitmap(alloc, words),
        "samples" => samples::samples(alloc, words),
        "image" => images::image(alloc, words),
        "kept" => images::kept(alloc, words),
        _ => None,
    }
}
