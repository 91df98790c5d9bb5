ghost use Rattle.std.specs.Prelude.{◌≡◌, ◌≢◌, ◌++◌};
ghost use Rattle.script_runs.specs.Verdicts.{IfTold};
ghost use Rattle.capture_runs.specs.Ends.{RunEnds, IsWhole, AnswersContent};
ghost use Rattle.capture_streams.specs.Texts.{listed_text, streams_text, always};

use crate::stream_text::{add_end, add_streams};
use crate::table::Table;
use capture_runs::{Ending, Telling, run_capture};
use gev_capture::Content;
use gev_links::{Sink, Source};
use gev_types::NoMemory;
use std::alloc::Global;

impl Telling for Table {
    ghost use Rattle.std.specs.Prelude.{◌≡◌};
    ghost use Rattle.capture_streams.specs.Streams.{TableState};
    ghost use Rattle.capture_streams.specs.Texts.{table_texts};

    ghost Plain = { TableState };

    ghost texts = { table_texts };

    ghost stands_for = { λ table t. table ≡ t };

    fn packet(
        &mut self,
        begin: u64,
        moment: u64,
        what: Content<'_>,
        _out: &mut Vec<u8>,
    ) -> Result<(), NoMemory> {
        self.count(begin, moment, what);
        Ok(())
    }

    fn is_told(&self) -> bool {
        true
    }

    fn finish(&self, out: &mut Vec<u8>) -> Result<(), NoMemory> {
        add_streams(out, self.streams())
    }

    fn close(&mut self, out: &mut Vec<u8>) -> Result<(), NoMemory> {
        add_end(out, self.counts(), self.streams().len())
    }
}

/// Writes a line for each image stream in the capture that the source gives, in the order in which they begin,
/// and an end line.
///
/// Where a record of the capture is refused, the text of the packets before it is written whole. Where reading
/// fails, the lines of the streams are written without the end line. Memory doesn't grow with the capture, and behind its
/// last record at most 1,114,112 bytes are taken.
pub fn list_streams<S: Source, K: Sink>(alloc: Global, source: &mut S, sink: &mut K) -> Ending
    ensures ends { RunEnds streams_text listed_text always result
        (S.left source.old) (S.left source.new) (S.faults source.old) (S.faults source.new)
        (K.written sink.old) (K.written sink.new) (K.faults sink.old) (K.faults sink.new) }
    ensures exact { IfTold (S.left source.old) (λ content. AnswersContent always result content) }
    ensures reads_steady { IsWhole result → S.faults source.new ≡ S.faults source.old }
    ensures writes_steady { result ≢ Ending.WriteFault → K.faults sink.new ≡ K.faults sink.old }
{
    match Table::new(alloc) {
        Ok(mut table) => {
            let mut out = Vec::new(alloc);
            run_capture(alloc, source, sink, &mut table, &mut out)
        }
        Err(NoMemory) => Ending::NoMemory,
    }
}
