ghost use Rattle.std.specs.Prelude.{◌≡◌, ◌↔◌, ◌+◌, ◌<◌, ◌≤◌, [], ◌∷◌, length, IsTrue, IfOk, OnOk, OnErr, MatchOption};
ghost use Rattle.std.specs.VecDeque.{deque_len, deque_capacity};
ghost use Rattle.lossy_queue.specs.Lossy.{placed, put_as, put_lossy, after_put};

use crate::datagram::{Channel, Datagram};
use crate::fate::{Fate, draw_fate};
use crate::rates::Rates;
use gev_frames::Lcg;
use gev_types::{Bytes, NoMemory};
use std::alloc::Global;
use std::collections::VecDeque;
use std::marker::Model;

/// Datagrams on their way through a network that loses, repeats and swaps them.
///
/// Contracts see the list of those that come next, the first of them first.
#[derive(Drop)]
pub struct LossyQueue {
    alloc: Global,
    items: VecDeque<Datagram>,
}

impl Model for LossyQueue {
    ghost use Rattle.std.specs.Prelude.{List};
    ghost use Rattle.lossy_queue.specs.declared.datagram.Datagram.{Datagram};

    ghost Value = { List Datagram };

    ghost view = { λ q. q.items.items };
}

/// A datagram of these bytes, which are copied.
fn datagram_of(alloc: Global, channel: Channel, bytes: &[u8]) -> Result<Datagram, NoMemory>
    ensures { IfOk result (λ d. d ≡ record { channel = channel; bytes = bytes.now }) }
{
    let bytes = Bytes::of(Vec::from_slice(alloc, bytes)?);
    Ok(Datagram { channel, bytes })
}

/// Puts a datagram at the end, or just before the last entry if it's swapped.
fn enqueue(items: &mut VecDeque<Datagram>, swapped: bool, datagram: Datagram)
    requires { deque_len items.old < deque_capacity items.old }
    ensures placed { items.new.items ≡ placed swapped datagram items.old.items }
    ensures len { deque_len items.new ≡ deque_len items.old + 1 }
    ensures capacity { deque_capacity items.new ≡ deque_capacity items.old }
{
    if !swapped {
        items.push_back_reserved(datagram);
        return;
    }
    match items.pop_back() {
        Some(last) => {
            items.push_back_reserved(datagram);
            items.push_back_reserved(last);
        }
        None => items.push_back_reserved(datagram),
    }
}

fn put_once(
    items: &mut VecDeque<Datagram>,
    swapped: bool,
    datagram: Datagram,
) -> Result<(), NoMemory>
    ensures placed { OnOk result (items.new.items ≡ placed swapped datagram items.old.items) }
    ensures same { OnErr result (items.new.items ≡ items.old.items) }
{
    items.reserve(1)?;
    enqueue(items, swapped, datagram);
    Ok(())
}

fn put_twice(
    items: &mut VecDeque<Datagram>,
    swapped: bool,
    datagram: Datagram,
    again: Datagram,
) -> Result<(), NoMemory>
    ensures placed { OnOk result (items.new.items ≡ placed swapped again (placed swapped datagram items.old.items)) }
    ensures same { OnErr result (items.new.items ≡ items.old.items) }
{
    items.reserve(2)?;
    enqueue(items, swapped, datagram);
    enqueue(items, swapped, again);
    Ok(())
}

impl LossyQueue {
    /// No datagram yet. Takes no memory.
    pub fn new(alloc: Global) -> LossyQueue
        ensures { result ≡ [] }
    {
        LossyQueue {
            alloc,
            items: VecDeque::new(alloc),
        }
    }

    /// Whether no datagram is on its way.
    pub fn is_empty(&self) -> bool
        ensures { IsTrue result ↔ (self.now ≡ []) }
    {
        self.items.is_empty()
    }

    fn put_as(&mut self, fate: Fate, channel: Channel, bytes: &[u8]) -> Result<(), NoMemory>
        ensures put { OnOk result (self.new ≡ put_as fate (record { channel = channel; bytes = bytes.now }) self.old) }
        ensures same { OnErr result (self.new ≡ self.old) }
    {
        match fate {
            Fate::Lost => Ok(()),
            Fate::Once { swapped } => {
                let datagram = datagram_of(self.alloc, channel, bytes)?;
                put_once(&mut self.items, swapped, datagram)
            }
            Fate::Twice { swapped } => {
                let datagram = datagram_of(self.alloc, channel, bytes)?;
                let again = datagram_of(self.alloc, channel, bytes)?;
                put_twice(&mut self.items, swapped, datagram, again)
            }
        }
    }

    /// Puts a datagram into the network: it's lost, or its bytes are copied into the queue once or
    /// twice. Three numbers are drawn. After NoMemory queue and generator are as they were.
    #[tactic(auto, unfolding(crate::specs::Lossy::put_lossy))]
    pub fn put(
        &mut self,
        rates: Rates,
        generator: &mut Lcg,
        channel: Channel,
        bytes: &[u8],
    ) -> Result<(), NoMemory>
        ensures put { OnOk result (self.new ≡ put_lossy rates generator.old (record { channel = channel; bytes = bytes.now }) self.old) }
        ensures drawn { OnOk result (generator.new ≡ after_put generator.old) }
        ensures same { OnErr result (self.new ≡ self.old) }
        ensures undrawn { OnErr result (generator.new ≡ generator.old) }
    {
        let mut ahead = *generator;
        let fate = draw_fate(rates, &mut ahead);
        self.put_as(fate, channel, bytes)?;
        *generator = ahead;
        Ok(())
    }

    /// Takes the datagram that comes next, if there is one.
    pub fn pop(&mut self) -> Option<Datagram>
        ensures { MatchOption result ((self.old ≡ []) × (self.new ≡ [])) (λ d. self.old ≡ d ∷ self.new) }
    {
        self.items.pop_front()
    }
}
