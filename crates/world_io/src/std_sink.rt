ghost use Rattle.std.specs.Prelude.{◌≡◌, ◌^◌, ◌<◌, ◌≤◌, None, length, IfOk, OnOk, OnErr};
ghost use Rattle.world_io.specs.Faults.{next_count};

use crate::sink::Sink;
use crate::source::Failed;
use std::io::{ErrorKind, Write};
use std::marker::Model;

/// A sink over the writer of standard output. It does not tell its contents: a clause sees the count of its faults.
///
/// It keeps nothing back: the bytes that a write took were handed to the system.
#[derive(Drop)]
pub struct StdSink<W> {
    output: W,
    faults: u64,
}

impl<W> Model for StdSink<W> {
    ghost use Rattle.std.specs.Prelude.{ℕ};

    ghost Value = { ℕ };

    ghost view = { λ s. s.faults };
}

/// One write, tried again where a signal interrupted it. Nothing taken of a piece that has bytes is a fault.
fn write_retrying<W: Write>(output: &mut W, piece: &[u8]) -> Result<usize, Failed>
    ensures fits { IfOk result (λ n. n ≤ length piece.now) }
    ensures some { IfOk result (λ n. 0 < length piece.now → 0 < n) }
{
    for _ in 0..u64::MAX {
        match output.write(piece) {
            Ok(0) if !piece.is_empty() => return Err(Failed),
            Ok(count) => return Ok(count),
            Err(error) => {
                if error.kind() != ErrorKind::Interrupted {
                    return Err(Failed);
                }
            }
        }
    }
    Err(Failed)
}

impl<W: Write> StdSink<W> {
    /// A sink over what the runtime gives as standard output, with no fault so far.
    pub fn new(output: W) -> StdSink<W>
        ensures { result ≡ 0 }
    {
        StdSink { output, faults: 0 }
    }
}

impl<W: Write> Sink for StdSink<W> {
    ghost contents = { λ _. None };

    ghost faults = { λ count. count };

    fn write(&mut self, piece: &[u8]) -> Result<usize, Failed>
        ensures fits { IfOk result (λ n. n ≤ length piece.now) }
        ensures some { IfOk result (λ n. 0 < length piece.now → 0 < n) }
        ensures counted { self.old ≤ self.new }
        ensures bounded { self.new < 2 ^ 64 }

        // Its count rises by one exactly where the call fails.
        ensures ok { OnOk result (self.new ≡ self.old) }
        ensures err { OnErr result (self.new ≡ next_count self.old) }
    {
        let answer = write_retrying(&mut self.output, piece);
        self.faults = self.faults.saturating_add(u64::from(answer.is_err()));
        answer
    }
}

#[cfg(test)]
mod tests {
    use super::*;
    use std::io;
    use std::test::Fail;

    // A writer that is interrupted, takes one byte, takes nothing, fails, and then takes all.
    struct Fussy {
        calls: u8,
    }

    impl Write for Fussy {
        fn write(&mut self, buf: &[u8]) -> io::Result<usize> {
            self.calls = self.calls.saturating_add(1);
            match self.calls {
                1 => Err(io::Error::from(ErrorKind::Interrupted)),
                2 => Ok(buf.len().min(1)),
                3 => Ok(0),
                4 => Err(io::Error::from(ErrorKind::Other)),
                _ => Ok(buf.len()),
            }
        }

        fn flush(&mut self) -> io::Result<()> {
            Ok(())
        }
    }

    #[test]
    fn tries_again_and_counts_faults(rt: HostRuntime) -> Result<(), Fail> {
        let mut sink = StdSink::new(Fussy { calls: 0 });
        assert_eq!(rt; sink.write(b"ab"), Ok(1));
        assert_eq!(rt; sink.faults, 0);
        assert_eq!(rt; sink.write(b"b"), Err(Failed));
        assert_eq!(rt; sink.faults, 1);
        assert_eq!(rt; sink.write(b"b"), Err(Failed));
        assert_eq!(rt; sink.faults, 2);
        assert_eq!(rt; sink.write(b"bc"), Ok(2));
        assert_eq!(rt; sink.faults, 2);
        let StdSink { output, faults: _ } = sink;
        let Fussy { calls: _ } = output;
        Ok(())
    }
}
