ghost use Rattle.std.specs.Prelude.{◌≡◌, ◌≢◌, ◌≤◌, [], length, IfOk};
ghost use Rattle.gev_script.specs.declared.line_end.LineEnd.{LineEnd};
ghost use Rattle.gev_script.specs.Streams.{Nexts, Keeps};
ghost use Rattle.gev_script.specs.Window.{numbered};

use crate::line_end::LineEnd;
use crate::window::{Window, hold_next_line};
use gev_links::Source;
use gev_types::NoMemory;
use std::alloc::Global;
use std::marker::Model;

/// The lines of a script, taken from a source one at a time.
///
/// Contracts see how many lines were given, the last of them, the bytes that are held behind it, and
/// the first refusal.
#[derive(Drop)]
pub struct Lines {
    window: Window,
    given: u32,
    refusal: Option<LineEnd>,
}

impl Model for Lines {
    ghost use Rattle.std.specs.Prelude.{◌≤◌, length};
    ghost use Rattle.gev_script.specs.Streams.{LinesState};

    ghost Value = { LinesState };

    ghost view = { λ l. record { given = l.given; line = l.window.line; held = l.window.held; refusal = l.refusal } };

    ghost invariant = { λ l. length l.window.held ≤ 32768 };
}

impl Lines {
    /// No line yet. Reserves all the memory that lines take, 32,768 bytes.
    pub fn new(alloc: Global) -> Result<Lines, NoMemory>
        ensures { IfOk result (λ lines. lines ≡ record { given = 0; line = []; held = []; refusal = None }) }
    {
        let window = Window::new(alloc)?;
        Ok(Lines {
            window,
            given: 0,
            refusal: None,
        })
    }

    /// The number of the next line, from 1, which `line` then lends, or why there is none. Takes no
    /// memory, and reads only where the bytes that are held have no whole line and aren't too long.
    /// A refusal is given again at each further call, which reads nothing.
    pub fn next<S: Source>(&mut self, source: &mut S) -> Result<u32, LineEnd>
        ensures kept { (end : LineEnd) → self.old.refusal ≡ Some end → Keeps end result self.old self.new (S.left source.old) (S.left source.new) (S.faults source.old) (S.faults source.new) }
        ensures next { self.old.refusal ≡ None → Nexts result self.old self.new (S.left source.old) (S.left source.new) (S.faults source.old) (S.faults source.new) }
        ensures steady { result ≢ Err LineEnd.ReadFault → S.faults source.new ≡ S.faults source.old }
        ensures never_falls { S.faults source.old ≤ S.faults source.new }
        ensures few { length self.new.held ≤ 32768 }
    {
        if let Some(end) = self.refusal {
            return Err(end);
        }
        let taken = hold_next_line(&mut self.window, source);
        match numbered(self.given, taken) {
            Ok(number) => {
                self.given = number;
                Ok(number)
            }
            Err(end) => {
                self.refusal = Some(end);
                Err(end)
            }
        }
    }

    /// How many lines were given.
    pub fn given(&self) -> u32
        ensures { result ≡ self.now.given }
    {
        self.given
    }

    /// The line that was given last, without its line feed. After a refusal it says nothing.
    pub fn line(&self) -> &[u8]
        ensures { result.now ≡ self.now.line }
    {
        self.window.line()
    }
}

/// The number of a line that was taken, unless there were too many before it.
fn numbered(given: u32, taken: Result<(), LineEnd>) -> Result<u32, LineEnd>
    ensures { result ≡ numbered given taken }
{
    taken?;
    match given.checked_add(1) {
        Some(number) => Ok(number),
        None => Err(LineEnd::Many),
    }
}
