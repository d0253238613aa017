//! What the words of a list say: its head, and the link of each place on it.
ghost use Rattle.std.specs.Prelude.{◌≡◌, ◌^◌, ◌≤◌};
ghost use Rattle.word_map.specs.Words.{word_of_link};

/// What the head or a link of a list of free places says.
#[derive(Clone, Copy, Debug, PartialEq, Eq)]
pub enum ListWord {
    /// The list ends.
    End,
    /// This place is the next.
    Next { place: u32 },
}

impl ListWord {
    /// What a word says.
    #[inline(always)]
    pub fn from_word(word: u64) -> ListWord
        requires in_range { word ≤ 2 ^ 32 }
        ensures { word_of_link result ≡ word }
    {
        if word == 0 {
            ListWord::End
        } else {
            ListWord::Next {
                place: (word - 1) as u32,
            }
        }
    }

    /// The word that says it.
    #[inline(always)]
    pub fn to_word(self) -> u64
        ensures { result ≡ word_of_link self }
    {
        match self {
            ListWord::End => 0,
            ListWord::Next { place } => 1 + u64::from(place),
        }
    }
}
