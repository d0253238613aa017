//! The kinds of commands.
ghost use Rattle.std.specs.Prelude.{◌<◌};

/// A kind of command.
#[derive(Clone, Copy)]
pub(crate) enum Kind {
    Create,
    Destroy,
    Add,
    Prepare,
    Finalize,
    Abort,
    Remove,
    Move,
    User,
    Read,
    Multi,
    Box,
    Point,
    Ray,
}

/// How many kinds there are.
pub(crate) const KINDS: usize = 14;

/// The words of the commands.
pub(crate) const WORDS: [&str; KINDS] = [
    "create", "destroy", "add", "prepare", "finalize", "abort", "remove", "move", "user", "read",
    "multi", "box", "point", "ray",
];

impl Kind {
    /// The kind of a number below 100, by how often it is to come.
    pub(crate) fn drawn(number: u32) -> Kind {
        match number {
            0..=17 => Kind::Create,
            18..=24 => Kind::Destroy,
            25..=34 => Kind::Add,
            35..=52 => Kind::Prepare,
            53..=59 => Kind::Finalize,
            60..=63 => Kind::Abort,
            64..=73 => Kind::Remove,
            74..=78 => Kind::Move,
            79..=82 => Kind::User,
            83..=86 => Kind::Read,
            87..=90 => Kind::Multi,
            91..=93 => Kind::Box,
            94..=96 => Kind::Point,
            _ => Kind::Ray,
        }
    }

    /// The word with which its lines begin.
    pub(crate) fn word(self) -> &'static str {
        WORDS[self.place()]
    }

    /// Its place among all kinds.
    fn place(self) -> usize
        ensures { result < 14 }
    {
        match self {
            Kind::Create => 0,
            Kind::Destroy => 1,
            Kind::Add => 2,
            Kind::Prepare => 3,
            Kind::Finalize => 4,
            Kind::Abort => 5,
            Kind::Remove => 6,
            Kind::Move => 7,
            Kind::User => 8,
            Kind::Read => 9,
            Kind::Multi => 10,
            Kind::Box => 11,
            Kind::Point => 12,
            Kind::Ray => 13,
        }
    }
}
