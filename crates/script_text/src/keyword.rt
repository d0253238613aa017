ghost use Rattle.std.specs.Prelude.{◌≡◌};
ghost use Rattle.script_text.specs.Keyword.{keyword_text, unbuilt_text, keyword_of, is_unbuilt, unknown_word};

use crate::code::Code;

/// The first word of a command that is built.
#[derive(Clone, Copy, Debug, PartialEq, Eq)]
pub enum Keyword {
    World,
    Create,
    Destroy,
    Add,
    Prepare,
    Finalize,
    Abort,
    Remove,
    Move,
    User,
    Read,
    Multi,
    QueryBox,
    QueryPoint,
    QueryRay,
}

/// The first word of a command that is not built yet.
#[derive(Clone, Copy, Debug, PartialEq, Eq)]
pub enum Unbuilt {
    Update,
    Retire,
    Velocity,
    Step,
    Actor,
    Go,
    Par,
    Worker,
    End,
}

/// The table of the commands that are built. A later command moves to it from the table below.
const BUILT: [Keyword; 15] = [
    Keyword::QueryBox,
    Keyword::QueryPoint,
    Keyword::QueryRay,
    Keyword::Move,
    Keyword::Create,
    Keyword::Destroy,
    Keyword::Add,
    Keyword::Remove,
    Keyword::Read,
    Keyword::User,
    Keyword::Multi,
    Keyword::Prepare,
    Keyword::Finalize,
    Keyword::Abort,
    Keyword::World,
];

/// The table of the commands that are not: a line that begins with such a word has the fault `later`.
const UNBUILT: [Unbuilt; 9] = [
    Unbuilt::Update,
    Unbuilt::Retire,
    Unbuilt::Velocity,
    Unbuilt::Step,
    Unbuilt::Actor,
    Unbuilt::Go,
    Unbuilt::Par,
    Unbuilt::Worker,
    Unbuilt::End,
];

impl Keyword {
    /// The word itself.
    fn text(self) -> &'static [u8]
        ensures { result.now ≡ keyword_text self }
    {
        match self {
            Keyword::World => b"world",
            Keyword::Create => b"create",
            Keyword::Destroy => b"destroy",
            Keyword::Add => b"add",
            Keyword::Prepare => b"prepare",
            Keyword::Finalize => b"finalize",
            Keyword::Abort => b"abort",
            Keyword::Remove => b"remove",
            Keyword::Move => b"move",
            Keyword::User => b"user",
            Keyword::Read => b"read",
            Keyword::Multi => b"multi",
            Keyword::QueryBox => b"box",
            Keyword::QueryPoint => b"point",
            Keyword::QueryRay => b"ray",
        }
    }

    /// The command that a word names, and `None` where it names none that is built.
    #[tactic(auto, unfolding(crate::specs::Keyword::keyword_of))]
    pub fn of(word: &[u8]) -> Option<Keyword>
        ensures { result ≡ keyword_of word.now }
    {
        BUILT.iter().copied().find(|keyword| word == keyword.text())
    }
}

impl Unbuilt {
    /// The word itself.
    fn text(self) -> &'static [u8]
        ensures { result.now ≡ unbuilt_text self }
    {
        match self {
            Unbuilt::Update => b"update",
            Unbuilt::Retire => b"retire",
            Unbuilt::Velocity => b"velocity",
            Unbuilt::Step => b"step",
            Unbuilt::Actor => b"actor",
            Unbuilt::Go => b"go",
            Unbuilt::Par => b"par",
            Unbuilt::Worker => b"worker",
            Unbuilt::End => b"end",
        }
    }

    /// Whether a word names a command that is not built yet.
    fn has(word: &[u8]) -> bool
        ensures { result ≡ is_unbuilt word.now }
    {
        UNBUILT.iter().any(|keyword| word == keyword.text())
    }
}

/// What is wrong with a word that names no command which is built.
pub fn unknown_word(word: &[u8]) -> Code
    ensures { result ≡ unknown_word word.now }
{
    if Unbuilt::has(word) {
        Code::Later
    } else {
        Code::Word
    }
}
