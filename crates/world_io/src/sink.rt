ghost use Rattle.std.specs.Prelude.{◌≡◌, ℕ, ◌^◌, ◌<◌, ◌≤◌, List, Option, length, take, IfOk, OnOk, OnErr};
ghost use Rattle.world_io.specs.Bytes.{Appended, AppendedPart};
ghost use Rattle.world_io.specs.Faults.{Rose};

use crate::source::Failed;

/// Where bytes go to.
pub trait Sink {
    // The bytes that were written, where they are told.
    ghost contents: { Self → Option (List ℕ) };

    // How many writes failed; the count begins at 0 and ends at 2^64 - 1.
    ghost faults: { Self → ℕ };

    /// Appends the first bytes of `piece`, and answers how many these are: at least one of a piece that has any.
    ///
    /// A write that failed leaves the contents as they were, and may be tried again.
    fn write(&mut self, piece: &[u8]) -> Result<usize, Failed>
        ensures fits { IfOk result (λ n. n ≤ length piece.now) }
        ensures some { IfOk result (λ n. 0 < length piece.now → 0 < n) }
        ensures appended { IfOk result (λ n. Appended (contents self.old) (contents self.new) (take n piece.now)) }
        ensures unchanged { OnErr result (contents self.new ≡ contents self.old) }
        ensures fault { OnErr result (Rose (faults self.old) (faults self.new)) }
        ensures counted { faults self.old ≤ faults self.new }
        ensures bounded { faults self.new < 2 ^ 64 };
}

/// Writes the whole piece, in as many writes as the sink needs, and stops at the first that fails.
#[tactic(auto, using(crate::proofs::FrontLemmas::by_fronts))]
pub fn write_all<K: Sink>(sink: &mut K, piece: &[u8]) -> Result<(), Failed>
    ensures whole { OnOk result (Appended (K.contents sink.old) (K.contents sink.new) piece.now) }
    ensures part { OnErr result (AppendedPart (K.contents sink.old) (K.contents sink.new) piece.now) }
    ensures fault { OnErr result (Rose (K.faults sink.old) (K.faults sink.new)) }
    ensures counted { K.faults sink.old ≤ K.faults sink.new }
{
    let mut at = 0;
    while at < piece.len() {
        at += sink.write(&piece[at..])?;
    }
    Ok(())
}
