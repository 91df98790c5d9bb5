//! A row's fields, one behind another.

use anyhow::Result;
use std::alloc::Global;

/// The fields of a row that are still to be read.
#[derive(Drop)]
pub struct Fields<'x> {
    rest: &'x str,
}

impl<'x> Fields<'x> {
    /// The fields of a row behind its word.
    pub fn new(rest: &'x str) -> Fields<'x> {
        Fields { rest }
    }

    /// The next field.
    pub fn word(&mut self) -> &'x str {
        let (word, rest) = self.rest.split_once(' ').unwrap_or((self.rest, ""));
        self.rest = rest;
        word
    }

    /// The next field as a text, of which `.` is the empty one.
    pub fn text(&mut self) -> &'x str {
        let word = self.word();
        if word == "." { "" } else { word }
    }

    /// The next field as a number, 0 where it isn't one.
    pub fn number(&mut self) -> u64 {
        self.word().parse::<u64>().unwrap_or(0)
    }

    /// The same, of 32 bits.
    pub fn small(&mut self) -> u32 {
        self.word().parse::<u32>().unwrap_or(0)
    }

    /// The same, of 8 bits.
    pub fn byte(&mut self) -> u8 {
        self.word().parse::<u8>().unwrap_or(0)
    }

    /// The next field as numbers.
    pub fn numbers(&mut self, alloc: Global) -> Result<Vec<u64>> {
        let mut found = Vec::new(alloc);
        self.read_numbers(&mut found)?;
        Ok(found)
    }

    /// Adds the numbers of the next field.
    pub fn read_numbers(&mut self, into: &mut Vec<u64>) -> Result<()> {
        for part in self.word().split(',') {
            if let Ok(number) = part.parse::<u64>() {
                into.push(number)?;
            }
        }
        Ok(())
    }

    /// Adds the datagrams of the next field.
    pub fn read_datagrams(&mut self, alloc: Global, into: &mut Vec<Option<Vec<u8>>>) -> Result<()> {
        for part in self.word().split(',') {
            read_datagram(alloc, part, into)?;
        }
        Ok(())
    }
}

/// Adds a datagram, or a receive that gets nothing.
fn read_datagram(alloc: Global, part: &str, into: &mut Vec<Option<Vec<u8>>>) -> Result<()> {
    if part == "-" {
        into.push(None)?;
    } else if let Some(digits) = part.strip_prefix("0x") {
        into.push(Some(hex::decode(alloc, digits)?))?;
    }
    Ok(())
}
