ghost use Rattle.std.specs.Prelude.{◌≡◌, ◌^◌, ◌<◌, ◌≤◌, None, length, IfOk, OnOk, OnErr};
ghost use Rattle.world_io.specs.Faults.{next_count};

use crate::source::{Failed, Source};
use std::io::{ErrorKind, Read};
use std::marker::Model;

/// A source over the reader of standard input. It does not tell its bytes: a clause sees the count of its faults.
#[derive(Drop)]
pub struct StdSource<R> {
    input: R,
    faults: u64,
}

impl<R> Model for StdSource<R> {
    ghost use Rattle.std.specs.Prelude.{ℕ};

    ghost Value = { ℕ };

    ghost view = { λ s. s.faults };
}

/// One read, tried again where a signal interrupted it.
fn read_retrying<R: Read>(input: &mut R, buf: &mut [u8]) -> Result<usize, Failed>
    ensures { IfOk result (λ n. n ≤ length buf.new) }
{
    for _ in 0..u64::MAX {
        match input.read(buf) {
            Ok(count) => return Ok(count),
            Err(error) => {
                if error.kind() != ErrorKind::Interrupted {
                    return Err(Failed);
                }
            }
        }
    }
    Err(Failed)
}

impl<R: Read> StdSource<R> {
    /// A source over what the runtime gives as standard input, with no fault so far.
    pub fn new(input: R) -> StdSource<R>
        ensures { result ≡ 0 }
    {
        StdSource { input, faults: 0 }
    }
}

impl<R: Read> Source for StdSource<R> {
    ghost left = { λ _. None };

    ghost faults = { λ count. count };

    fn read(&mut self, buf: &mut [u8]) -> Result<usize, Failed>
        ensures fits { IfOk result (λ n. n ≤ length buf.new) }
        ensures counted { self.old ≤ self.new }
        ensures bounded { self.new < 2 ^ 64 }

        // Its count rises by one exactly where the call fails.
        ensures ok { OnOk result (self.new ≡ self.old) }
        ensures err { OnErr result (self.new ≡ next_count self.old) }
    {
        let answer = read_retrying(&mut self.input, buf);
        self.faults = self.faults.saturating_add(u64::from(answer.is_err()));
        answer
    }
}

#[cfg(test)]
mod tests {
    use super::*;
    use std::io;
    use std::test::Fail;

    // A reader that is interrupted, gives one byte, fails, and then is at its end.
    struct Fussy {
        calls: u8,
    }

    impl Read for Fussy {
        fn read(&mut self, buf: &mut [u8]) -> io::Result<usize> {
            self.calls = self.calls.saturating_add(1);
            match (self.calls, buf) {
                (1, _) => Err(io::Error::from(ErrorKind::Interrupted)),
                (2, [first, ..]) => {
                    *first = b'x';
                    Ok(1)
                }
                (3, _) => Err(io::Error::from(ErrorKind::Other)),
                _ => Ok(0),
            }
        }
    }

    #[test]
    fn tries_again_and_counts_faults(rt: HostRuntime) -> Result<(), Fail> {
        let mut source = StdSource::new(Fussy { calls: 0 });
        let mut buf = [0u8; 2];
        assert_eq!(rt; source.read(&mut buf), Ok(1));
        assert_eq!(rt; buf, *b"x\0");
        assert_eq!(rt; source.faults, 0);
        assert_eq!(rt; source.read(&mut buf), Err(Failed));
        assert_eq!(rt; source.faults, 1);
        assert_eq!(rt; source.read(&mut buf), Ok(0));
        assert_eq!(rt; source.faults, 1);
        let StdSource { input, faults: _ } = source;
        assert_eq!(rt; input.calls, 4);
        let Fussy { calls: _ } = input;
        Ok(())
    }
}
