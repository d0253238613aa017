ghost use Rattle.std.specs.Prelude.{◌≡◌};
ghost use Rattle.broadphase.specs.Status.{exit_code};

/// How a run ended.
#[derive(Clone, Copy, Debug, PartialEq, Eq)]
pub enum Status {
    /// The command was carried out.
    Done,
    /// The words are no command.
    Usage,
    /// The bytes are no script, and a line was written that says which line is the first bad one.
    BadScript,
    /// A read failed.
    ReadFault,
    /// A write failed.
    WriteFault,
    /// Want of memory.
    Memory,
    /// The script has more than 8,388,608 bytes.
    TooLong,
}

impl Status {
    /// The exit status of the program.
    pub fn exit_code(self) -> u8
        ensures { result ≡ exit_code self }
    {
        match self {
            Status::Done => 0,
            Status::Usage => 2,
            Status::BadScript => 3,
            Status::ReadFault => 4,
            Status::WriteFault => 5,
            Status::Memory => 6,
            Status::TooLong => 7,
        }
    }
}
