//! What becomes of a datagram.

ghost use Rattle.std.specs.Prelude.{◌≡◌, Some, None, Ok, OnOk, List};
ghost use Rattle.gvsp_wire.specs.View.{view};
ghost use Rattle.gvsp_wire.specs.Reading.{packet_of};
ghost use Rattle.acquisition_machine.specs.declared.config.AcqConfig.{AcqConfig};
ghost use Rattle.acquisition_machine.specs.declared.need.Need.TheVariants as needs;
ghost use Rattle.acquisition_machine.specs.Machine.{Input, datagram};
ghost use Rattle.acquisition_machine.specs.Runs.{turn};
ghost use Rattle.script_trace.specs.Inputs.{need_notes};
ghost use Rattle.note_report.specs.Names.{IsNamed};
ghost use Rattle.note_tape.specs.Tells.{Tells};

use crate::Told;
use acq_core::{Need, Why};
use gev_types::NoMemory;
use gvsp_wire::{Head, Packet, parse};
use note_report::Named;

/// What a packet of this header is named by, which carries so many bytes.
fn named_by(head: Head, bytes: u64) -> Named
    ensures { result ≡ record { block = head.block; id = head.id; status = head.status; bytes = bytes } }
{
    Named {
        block: head.block,
        id: head.id,
        status: head.status,
        bytes,
    }
}

/// What a note names of a packet.
fn named(packet: Packet<'_>) -> Named
    ensures { IsNamed (view packet.entry) result }
{
    match packet {
        Packet::Leader(head, _info) => named_by(head, 0),
        Packet::Payload(head, data) => named_by(head, data.len() as u64),
        Packet::Trailer(head, _lines) => named_by(head, 0),
        Packet::Notice(head) => named_by(head, 0),
    }
}

/// Puts a datagram that was ignored on the tape.
fn tape_ignored(tape: &mut Vec<Told>, why: Why, bytes: &[u8]) -> Result<(), NoMemory>
    ensures { (c : AcqConfig) (q : List Input) → (turn c q (datagram bytes.now)).need ≡ Some (needs.Ignored why)
        → OnOk result (Tells tape.old.items tape.new.items (need_notes (packet_of bytes.now) (Some (needs.Ignored why)))) }
{
    match parse(bytes) {
        Ok(packet) => tape.push(Told::Ignored(why, named(packet)))?,
        Err(error) => tape.push(Told::Foreign(error))?,
    }
    Ok(())
}

/// Puts a packet that was kept on the tape, where it is a leader.
fn tape_packet(tape: &mut Vec<Told>, packet: Packet<'_>) -> Result<(), NoMemory>
    ensures { OnOk result (Tells tape.old.items tape.new.items (need_notes (Some (view packet.entry)) (Some needs.Done))) }
{
    match packet {
        Packet::Leader(head, info) => {
            tape.push(Told::Leader(head.block, info))?;
            Ok(())
        }
        Packet::Payload(_head, _data) => Ok(()),
        Packet::Trailer(_head, _lines) => Ok(()),
        Packet::Notice(_head) => Ok(()),
    }
}

/// Puts a datagram whose packet was kept on the tape, where it is a leader.
fn tape_kept(tape: &mut Vec<Told>, bytes: &[u8]) -> Result<(), NoMemory>
    ensures { OnOk result (Tells tape.old.items tape.new.items (need_notes (packet_of bytes.now) (Some needs.Done))) }
{
    match parse(bytes) {
        Ok(packet) => tape_packet(tape, packet),
        Err(_error) => Ok(()),
    }
}

/// Puts on the tape what became of a datagram.
pub fn tape_need(tape: &mut Vec<Told>, need: Need, bytes: &[u8]) -> Result<(), NoMemory>
    ensures { (c : AcqConfig) (q : List Input) → (turn c q (datagram bytes.now)).need ≡ Some need
        → OnOk result (Tells tape.old.items tape.new.items (need_notes (packet_of bytes.now) (Some need))) }
{
    match need {
        Need::Buffer(_block) => Ok(()),
        Need::Done => tape_kept(tape, bytes),
        Need::Ignored(why) => tape_ignored(tape, why, bytes),
    }
}
