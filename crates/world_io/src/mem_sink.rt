ghost use Rattle.std.specs.Prelude.{◌≡◌, ℕ, ◌+◌, ◌-◌, ◌^◌, ◌<◌, ◌≤◌, ◌↔◌, ◌++◌, List, Option, Some, [], length, take, min, IsErr, IfOk, OnErr};
ghost use Rattle.world_io.specs.Bytes.{Appended};
ghost use Rattle.world_io.specs.Faults.{Rose, next_count};
ghost use Rattle.world_io.specs.Tape.{Tape, RefusesNext};

use crate::fault_plan::is_planned;
use crate::sink::Sink;
use crate::source::Failed;
use std::alloc::{AllocError, Global};
use std::marker::Model;

/// A sink in memory, which tells its contents. It fails where it is told to, and takes small pieces if it is told to.
///
/// All the memory it needs is taken when it is made.
#[derive(Debug, Drop)]
pub struct MemSink {
    bytes: Vec<u8>,
    fails: Vec<u32>,
    at_most: usize,
    room: usize,
    calls: u64,
    faults: u64,
}

impl Model for MemSink {
    ghost use Rattle.std.specs.Prelude.{◌<◌, ◌≤◌, vec_len, vec_capacity};
    ghost use Rattle.world_io.specs.Tape.{Tape};

    ghost Value = { Tape };

    ghost view = { λ s. record {
      contents = s.bytes.items;
      fails = s.fails.items;
      at_most = s.at_most;
      room = s.room;
      calls = s.calls;
      faults = s.faults;
    } };

    ghost invariant = { λ s. (vec_len s.bytes ≤ s.room) × (s.room ≤ vec_capacity s.bytes) × (0 < s.at_most) };
}

impl MemSink {
    /// An empty sink. `fails` are the numbers of the calls that fail, of which the first is 1; `at_most` is the
    /// most bytes that one call takes, and `room` the most that all calls take.
    pub fn new(
        alloc: Global,
        fails: Vec<u32>,
        at_most: usize,
        room: usize,
    ) -> Result<MemSink, AllocError>
        requires { 0 < at_most }
        ensures { IfOk result (λ sink. sink ≡ record {
          contents = [];
          fails = fails.items;
          at_most = at_most;
          room = room;
          calls = 0;
          faults = 0;
        }) }
    {
        Ok(MemSink {
            bytes: Vec::with_capacity(alloc, room)?,
            fails,
            at_most,
            room,
            calls: 0,
            faults: 0,
        })
    }

    /// The bytes that were written.
    pub fn contents(&self) -> &[u8]
        ensures { result.now ≡ self.now.contents }
    {
        &self.bytes
    }
}

impl Sink for MemSink {
    ghost contents = { λ s. Some s.contents };

    ghost faults = { λ s. s.faults };

    /// Its count rises exactly where the number of the call is one of those that fail, or a piece that has
    /// bytes comes when no room is left.
    fn write(&mut self, piece: &[u8]) -> Result<usize, Failed>
        ensures fits { IfOk result (λ n. n ≤ length piece.now) }
        ensures some { IfOk result (λ n. 0 < length piece.now → 0 < n) }
        ensures appended { IfOk result (λ n. Appended (Some self.old.contents) (Some self.new.contents) (take n piece.now)) }
        ensures unchanged { OnErr result (Some self.new.contents ≡ Some self.old.contents) }
        ensures fault { OnErr result (Rose self.old.faults self.new.faults) }
        ensures counted { self.old.faults ≤ self.new.faults }
        ensures bounded { self.new.faults < 2 ^ 64 }

        // Which calls fail, how much the others take, and what each leaves.
        ensures fails { IsErr result ↔ RefusesNext self.old piece.now }
        ensures count { IfOk result (λ n. n ≡ min (min self.old.at_most (length piece.now)) (self.old.room - length self.old.contents)) }
        ensures ok { IfOk result (λ n. self.new ≡ record self.old { contents = self.old.contents ++ take n piece.now; calls = next_count self.old.calls }) }
        ensures err { OnErr result (self.new ≡ record self.old { calls = next_count self.old.calls; faults = next_count self.old.faults }) }
    {
        self.calls = self.calls.saturating_add(1);
        let left = self.room - self.bytes.len();
        if is_planned(&self.fails, self.calls) || (left == 0 && !piece.is_empty()) {
            self.faults = self.faults.saturating_add(1);
            return Err(Failed);
        }
        let count = self.at_most.min(piece.len()).min(left);
        self.bytes.extend_from_slice(&piece[..count]).unwrap();
        Ok(count)
    }
}

#[cfg(test)]
mod tests {
    use super::*;
    use crate::sink::write_all;
    use std::test::Fail;

    // One byte at a time: the third call fails with two bytes taken, and the room of four then holds two more.
    #[test]
    fn takes_small_pieces_and_fails_where_told(rt: HostRuntime) -> Result<(), Fail> {
        let fails = [3].to_vec(rt.alloc())?;
        let mut sink = MemSink::new(rt.alloc(), fails, 1, 4)?;
        assert_eq!(rt; write_all(&mut sink, b"abc"), Err(Failed));
        assert_eq!(rt; sink.contents(), b"ab".as_slice());
        assert_eq!(rt; sink.faults, 1);
        assert_eq!(rt; write_all(&mut sink, b"cd"), Ok(()));
        assert_eq!(rt; sink.contents(), b"abcd".as_slice());
        assert_eq!(rt; sink.write(b"e"), Err(Failed));
        assert_eq!(rt; sink.write(b""), Ok(0));
        assert_eq!(rt; sink.contents(), b"abcd".as_slice());
        assert_eq!(rt; sink.faults, 2);
        Ok(())
    }
}
