//! Captures of a network, as tcpdump, dumpcap and Wireshark write them: the file formats pcap and pcapng.
//!
//! `specs/Files.antt` says what the next record is, by the bytes that are left, and `specs/Captures.antt` what all
//! bytes are: packets, and an end. `specs/Contents.antt` says what a packet is, and `specs/Reading.antt` how records
//! come from a source.
#![tactic(auto)]

mod blocks; // the blocks of pcapng
mod capture_end; // why no further record comes
mod captured; // a packet, lent by its reader
mod classic; // the records of pcap
mod content; // what a packet is
mod form; // the file's form, and its interfaces
mod kind; // why a record is refused
mod laws; // laws of the definitions, as contracts
mod moments; // the packets' times, from the first on
mod numbers; // numbers in the file's byte order
mod options; // the options of an interface
mod order; // the byte order
mod reader; // the reader and its public calls
mod reading; // the next record, from a source
mod room; // the bytes that are held
mod seeing; // the headers of a packet, down to UDP
mod step; // what the next bytes begin with
mod telling; // how that is read of them

pub use capture_end::CaptureEnd;
pub use captured::Captured;
pub use content::Content;
pub use form::{Form, SectionInterface};
pub use kind::CaptureKind;
pub use laws::{captures_are_one, packets_have_bytes, pieces_tell};
pub use moments::Moments;
pub use order::Order;
pub use reader::Reader;
pub use reading::find_record;
pub use room::Room;
pub use seeing::{content_of, moment_of, what_of};
pub use step::{Change, Entry, Found, Slot, Step};
pub use telling::next_step;
