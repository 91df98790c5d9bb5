//! What the fields of a worker's row hold.

use crate::fields::Fields;
use anyhow::Result;
use board_calls::Mode;
use gev_types::{NoMemory, Peer};
use std::alloc::Global;

/// What a link hears: datagrams, each with who sent it, and receives that get nothing.
pub type Heard<'x> = &'x [Option<(&'x [u8], Peer)>];

/// The fields of a row behind its word.
#[derive(Clone, Copy)]
pub struct Case<'x> {
    /// Numbers, of which each call has its own meaning.
    pub numbers: &'x [u64],
    /// The moments that the clock tells.
    pub moments: &'x [u64],
    /// What the control link hears, or the camera's link.
    pub control: Heard<'x>,
    /// Which receives fail on that link, counted from 1.
    pub receives: &'x [u64],
    /// Which sends fail on that link, or which writes of a sink.
    pub sends: &'x [u64],
    /// What the stream's link hears.
    pub stream: Heard<'x>,
    /// Which receives fail on the stream's link.
    pub losses: &'x [u64],
}

impl<'x> Case<'x> {
    /// The number at this place, 0 where there is none.
    pub fn number(&self, place: usize) -> u64 {
        self.numbers.get(place).copied().unwrap_or(0)
    }

    /// The number at this place as a smaller one, 0 where it isn't.
    pub fn small(&self, place: usize) -> u32 {
        u32::try_from(self.number(place)).unwrap_or(0)
    }

    /// The buffer handling mode at this place.
    pub fn mode(&self, place: usize) -> Mode {
        match self.number(place) {
            0 => Mode::OldestFirst,
            1 => Mode::OldestFirstOverwrite,
            _ => Mode::NewestOnly,
        }
    }
}

/// What the fields of a row hold.
#[derive(Drop)]
pub struct Row {
    numbers: Vec<u64>,
    moments: Vec<u64>,
    control: Vec<Option<Vec<u8>>>,
    receives: Vec<u64>,
    sends: Vec<u64>,
    stream: Vec<Option<Vec<u8>>>,
    losses: Vec<u64>,
}

impl Row {
    /// A row with empty fields.
    pub fn new(alloc: Global) -> Row {
        Row {
            numbers: Vec::new(alloc),
            moments: Vec::new(alloc),
            control: Vec::new(alloc),
            receives: Vec::new(alloc),
            sends: Vec::new(alloc),
            stream: Vec::new(alloc),
            losses: Vec::new(alloc),
        }
    }

    /// Reads the fields behind a row's word.
    pub fn read(&mut self, alloc: Global, fields: &mut Fields<'_>) -> Result<()> {
        fields.read_numbers(&mut self.numbers)?;
        fields.read_numbers(&mut self.moments)?;
        self.read_control(alloc, fields)?;
        self.read_stream(alloc, fields)
    }

    /// Reads the fields of the control link, or the camera's.
    fn read_control(&mut self, alloc: Global, fields: &mut Fields<'_>) -> Result<()> {
        fields.read_datagrams(alloc, &mut self.control)?;
        fields.read_numbers(&mut self.receives)?;
        fields.read_numbers(&mut self.sends)
    }

    /// Reads the fields of the stream's link.
    fn read_stream(&mut self, alloc: Global, fields: &mut Fields<'_>) -> Result<()> {
        fields.read_datagrams(alloc, &mut self.stream)?;
        fields.read_numbers(&mut self.losses)
    }

    /// The datagrams of the control link, or the camera's.
    pub fn control(&self) -> &[Option<Vec<u8>>] {
        self.control.as_slice()
    }

    /// The datagrams of the stream's link.
    pub fn stream(&self) -> &[Option<Vec<u8>>] {
        self.stream.as_slice()
    }

    /// The row's case, whose links hear this.
    pub fn case<'x>(&'x self, control: Heard<'x>, stream: Heard<'x>) -> Case<'x> {
        Case {
            numbers: self.numbers.as_slice(),
            moments: self.moments.as_slice(),
            control,
            receives: self.receives.as_slice(),
            sends: self.sends.as_slice(),
            stream,
            losses: self.losses.as_slice(),
        }
    }
}

/// These datagrams as what a link hears from this peer.
pub fn heard(
    alloc: Global,
    datagrams: &[Option<Vec<u8>>],
    peer: Peer,
) -> Result<Vec<Option<(&[u8], Peer)>>, NoMemory> {
    let mut all = Vec::with_capacity(alloc, datagrams.len())?;
    for datagram in datagrams {
        all.push(heard_one(datagram, peer))?;
    }
    Ok(all)
}

/// A datagram as a link hears it.
fn heard_one(datagram: &Option<Vec<u8>>, peer: Peer) -> Option<(&[u8], Peer)> {
    match datagram {
        Some(bytes) => Some((bytes.as_slice(), peer)),
        None => None,
    }
}
