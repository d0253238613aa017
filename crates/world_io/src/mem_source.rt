ghost use Rattle.std.specs.Prelude.{◌≡◌, ℕ, ◌+◌, ◌^◌, ◌<◌, ◌≤◌, ◌↔◌, ◌++◌, List, Option, Some, length, take, drop, min, IsErr, IfOk, OnOk, OnErr};
ghost use Rattle.world_io.specs.Bytes.{Gave, StopsOnlyAtEnd};
ghost use Rattle.world_io.specs.Faults.{Rose, next_count};
ghost use Rattle.world_io.specs.Feed.{Feed, FailsNext};

use crate::fault_plan::is_planned;
use crate::source::{Failed, Source};
use std::marker::Model;

/// A source in memory, which tells its bytes. It fails where it is told to, and gives small pieces if it is told to.
#[derive(Debug, Drop)]
pub struct MemSource {
    bytes: Vec<u8>,
    at: usize,
    fails: Vec<u32>,
    at_most: usize,
    calls: u64,
    faults: u64,
}

impl Model for MemSource {
    ghost use Rattle.std.specs.Prelude.{◌<◌, ◌≤◌, drop, vec_len};
    ghost use Rattle.world_io.specs.Feed.{Feed};

    ghost Value = { Feed };

    ghost view = { λ s. record {
      left = drop s.at s.bytes.items;
      fails = s.fails.items;
      at_most = s.at_most;
      calls = s.calls;
      faults = s.faults;
    } };

    ghost invariant = { λ s. (s.at ≤ vec_len s.bytes) × (0 < s.at_most) };
}

impl MemSource {
    /// The source of these bytes. `fails` are the numbers of the calls that fail, of which the first is 1, and
    /// `at_most` is the most bytes that one call gives.
    pub fn new(bytes: Vec<u8>, fails: Vec<u32>, at_most: usize) -> MemSource
        requires { 0 < at_most }
        ensures { result ≡ record { left = bytes.items; fails = fails.items; at_most = at_most; calls = 0; faults = 0 } }
    {
        MemSource {
            bytes,
            at: 0,
            fails,
            at_most,
            calls: 0,
            faults: 0,
        }
    }

    /// Moves the first bytes that are left to the front of `buf`, as many as one call may give and as there is room
    /// for, and answers how many these are.
    #[tactic(auto, using(std::proofs::lemmas::List::Folds::drop_split))]
    fn give(&mut self, buf: &mut [u8]) -> usize
        ensures count { result ≡ min (min self.old.at_most (length buf.old)) (length self.old.left) }
        ensures copied { buf.new ≡ take result self.old.left ++ drop result buf.old }
        ensures rest { self.new ≡ record self.old { left = drop result self.old.left } }
    {
        let count = self.at_most.min(buf.len()).min(self.bytes.len() - self.at);
        buf[..count].copy_from_slice(&self.bytes[self.at..self.at + count]);
        self.at += count;
        count
    }
}

impl Source for MemSource {
    ghost left = { λ s. Some s.left };

    ghost faults = { λ s. s.faults };

    /// Its count rises exactly where the number of the call is one of those that fail.
    fn read(&mut self, buf: &mut [u8]) -> Result<usize, Failed>
        ensures fits { IfOk result (λ n. n ≤ length buf.new) }
        ensures gave { IfOk result (λ n. Gave (Some self.old.left) (Some self.new.left) (take n buf.new)) }
        ensures end { IfOk result (λ n. 0 < length buf.old → StopsOnlyAtEnd (Some self.old.left) n) }
        ensures unchanged { OnErr result (Some self.new.left ≡ Some self.old.left) }
        ensures fault { OnErr result (Rose self.old.faults self.new.faults) }
        ensures counted { self.old.faults ≤ self.new.faults }
        ensures none { OnOk result (self.new.faults ≡ self.old.faults) }
        ensures one { OnErr result (self.new.faults ≡ next_count self.old.faults) }
        ensures bounded { self.new.faults < 2 ^ 64 }

        // Which calls fail, how much the others move, and what each leaves.
        ensures fails { IsErr result ↔ FailsNext self.old }
        ensures count { IfOk result (λ n. n ≡ min (min self.old.at_most (length buf.old)) (length self.old.left)) }
        ensures copied { IfOk result (λ n. buf.new ≡ take n self.old.left ++ drop n buf.old) }
        ensures ok { IfOk result (λ n. self.new ≡ record self.old { left = drop n self.old.left; calls = next_count self.old.calls }) }
        ensures err { OnErr result (self.new ≡ record self.old { calls = next_count self.old.calls; faults = next_count self.old.faults }) }
    {
        self.calls = self.calls.saturating_add(1);
        if is_planned(&self.fails, self.calls) {
            self.faults = self.faults.saturating_add(1);
            return Err(Failed);
        }
        Ok(self.give(buf))
    }
}

#[cfg(test)]
mod tests {
    use super::*;
    use std::test::Fail;

    // Two bytes at a time: the second call fails and loses nothing, and the call after the last byte gives none.
    #[test]
    fn gives_small_pieces_and_fails_where_told(rt: HostRuntime) -> Result<(), Fail> {
        let bytes = b"abc".to_vec(rt.alloc())?;
        let fails = [2].to_vec(rt.alloc())?;
        let mut source = MemSource::new(bytes, fails, 2);
        let mut buf = [0u8; 4];
        assert_eq!(rt; source.read(&mut buf), Ok(2));
        assert_eq!(rt; buf, *b"ab\0\0");
        assert_eq!(rt; source.read(&mut buf), Err(Failed));
        assert_eq!(rt; source.faults, 1);
        assert_eq!(rt; source.read(&mut buf), Ok(1));
        assert_eq!(rt; buf, *b"cb\0\0");
        assert_eq!(rt; source.read(&mut buf), Ok(0));
        assert_eq!(rt; source.faults, 1);
        Ok(())
    }
}
