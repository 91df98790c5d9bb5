ghost use Rattle.std.specs.Prelude.{◌≡◌, ℕ, ◌∷◌, [], ◌++◌, OnOk};
ghost use Rattle.gev_capture.specs.Contents.{seen_as, IsShort};
ghost use Rattle.capture_runs.specs.Texts.{Texts, Tells};

use gev_capture::Content;
use gev_types::NoMemory;

/// Who writes a text of a capture's packets.
pub trait Telling {
    /// The plain states.
    ghost Plain: { Type 0 };

    /// What is written from a plain state on.
    ghost texts: { Texts Plain };

    /// The state stands for this plain one.
    ghost stands_for: { Self → Plain → Type 0 };

    /// Adds the text of what comes next: a packet at this moment, in milliseconds from the first packet, or what was
    /// dropped before the packets behind it. The moment 0 was at `begin`, in milliseconds since 1970.
    fn packet(
        &mut self,
        begin: u64,
        moment: u64,
        what: Content<'_>,
        out: &mut Vec<u8>,
    ) -> Result<(), NoMemory>
        requires { IsShort (seen_as what) }
        ensures { OnOk result ((p : Plain) → stands_for self.old p
            → Tells texts p (record { begin = begin; moment = moment; what = seen_as what.entry } ∷ []) (stands_for self.new) out.old.items out.new.items) };

    /// Whether something was told of.
    fn is_told(&self) -> bool
        ensures { (p : Plain) → stands_for self.now p → result ≡ texts.some p };

    /// Adds what stands behind the last packet that was read.
    fn finish(&self, out: &mut Vec<u8>) -> Result<(), NoMemory>
        ensures { OnOk result ((p : Plain) → stands_for self.now p → out.new.items ≡ out.old.items ++ texts.finish p) };

    /// Adds what stands behind that, where the capture is at its end or refused.
    fn close(&mut self, out: &mut Vec<u8>) -> Result<(), NoMemory>
        ensures { OnOk result ((p : Plain) → stands_for self.old p → out.new.items ≡ out.old.items ++ texts.close p) };
}
