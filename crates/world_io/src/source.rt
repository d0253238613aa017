ghost use Rattle.std.specs.Prelude.{◌≡◌, ℕ, ◌^◌, ◌<◌, ◌≤◌, List, Option, length, take, IfOk, OnOk, OnErr};
ghost use Rattle.world_io.specs.Bytes.{Gave, StopsOnlyAtEnd};
ghost use Rattle.world_io.specs.Faults.{Rose, next_count};

/// A read or a write failed. The count of faults of its source or sink tells that it did.
#[derive(Clone, Copy, Debug, PartialEq, Eq)]
pub struct Failed;

/// Where bytes come from.
pub trait Source {
    // The bytes that are left, where they are told.
    ghost left: { Self → Option (List ℕ) };

    // How many reads failed: it rises by one exactly where a read fails, from 0 to 2^64 - 1, where it stays.
    ghost faults: { Self → ℕ };

    /// Moves the first bytes that are left to the front of `buf`, and answers how many these are.
    ///
    /// With room in `buf` the answer is 0 exactly where no byte is left. What stands in `buf` behind
    /// these bytes, or after a failed read, is not told. A read that failed leaves the bytes as they were,
    /// and may be tried again.
    fn read(&mut self, buf: &mut [u8]) -> Result<usize, Failed>
        ensures fits { IfOk result (λ n. n ≤ length buf.new) }
        ensures gave { IfOk result (λ n. Gave (left self.old) (left self.new) (take n buf.new)) }
        ensures end { IfOk result (λ n. 0 < length buf.old → StopsOnlyAtEnd (left self.old) n) }
        ensures unchanged { OnErr result (left self.new ≡ left self.old) }
        ensures fault { OnErr result (Rose (faults self.old) (faults self.new)) }
        ensures counted { faults self.old ≤ faults self.new }
        ensures none { OnOk result (faults self.new ≡ faults self.old) }
        ensures one { OnErr result (faults self.new ≡ next_count (faults self.old)) }
        ensures bounded { faults self.new < 2 ^ 64 };
}
