//! Sets of packet ids.

ghost use Rattle.std.specs.Prelude.{◌<◌, length};

use crate::words::number32;
use packet_bitmap::Bitmap;
use std::alloc::Global;
use std::fmt::Write;
use std::str::SplitWhitespace;

/// A number, in decimal.
fn number(word: &str) -> Option<u32> {
    word.parse::<u32>().ok()
}

/// Whether the list of ids, with commas between them, has this one. `-` is a list without any.
fn contains(list: &str, wanted: u32) -> bool {
    list.split(',').any(|word| number(word) == Some(wanted))
}

/// A set of the ids below `ids` but those of the list.
fn all_but(alloc: Global, ids: u32, list: &str) -> Option<Bitmap> {
    let mut bitmap = Bitmap::new(alloc, ids).ok()?;
    for id in 0..ids {
        if id < bitmap.ids() && !contains(list, id) {
            bitmap.set(id);
        }
    }
    Some(bitmap)
}

/// The words, in hex.
fn add_words(bitmap: &Bitmap, out: &mut String) -> Option<()> {
    for word in bitmap.words() {
        write!(out, " {word:016x}").ok()?;
    }
    Some(())
}

/// The first and the last id of a range; of a single id both are that.
fn ids(range: &str) -> Option<(u32, u32)> {
    let (from, top) = range.split_once('-').unwrap_or((range, range));
    Some((number(from)?, number(top)?))
}

/// The answer to one call.
fn call(bitmap: &mut Bitmap, call: &str, out: &mut String) -> Option<()> {
    let (word, range) = call.split_once(':').unwrap_or((call, "0"));
    let (from, top) = ids(range)?;
    if from >= bitmap.ids() || top >= bitmap.ids() {
        return None;
    }
    match word {
        "set" => write!(out, " {}", bitmap.set(from)).ok(),
        "reset" => {
            bitmap.reset();
            Some(())
        }
        _ => look(bitmap, word, from, top, out),
    }
}

/// The answer to one call that leaves the set as it is.
fn look(bitmap: &Bitmap, word: &str, from: u32, top: u32, out: &mut String) -> Option<()>
    requires from { from < length bitmap.now }
    requires top { top < length bitmap.now }
{
    match word {
        "ids" => write!(out, " {}", bitmap.ids()).ok(),
        "words" => add_words(bitmap, out),
        "has" => write!(out, " {}", bitmap.has(from)).ok(),
        "hole" => write!(out, " {:?}", bitmap.next_hole(from, top)).ok(),
        "covers" => write!(out, " {}", bitmap.covers(top)).ok(),
        _ => None,
    }
}

/// A number of ids, a list of some of them, and calls: what each call gives on a set of all ids but those.
pub fn bitmap(alloc: Global, words: &mut SplitWhitespace<'_>) -> Option<String> {
    let ids = number32(words)?;
    let mut bitmap = all_but(alloc, ids, words.next()?)?;
    let mut out = String::new(alloc);
    for word in words {
        call(&mut bitmap, word, &mut out)?;
    }
    String::from_str(alloc, out.trim_start()).ok()
}
