//! What the state word and the phase word of a body say.
ghost use Rattle.std.specs.Prelude.{◌≡◌, ◌+◌, ◌%◌, ◌^◌, ◌<◌};
ghost use Rattle.word_map.specs.Words.{word_of_state, word_of_phase};

/// Added to the sequence number in the state word of an index where a body is live.
const LIVE: u64 = 256;

/// The phase word of a body that is joined by attach slot 0 of its layer.
const JOINED: u64 = 2;

/// What the state word of an index says.
#[derive(Clone, Copy, Debug, PartialEq, Eq)]
pub enum StateWord {
    /// A body is live, and this is the sequence number of its id.
    Live { sequence: u8 },
    /// None is live. The last one that was had this sequence number; 0 also where there was none yet.
    Free { sequence: u8 },
}

impl StateWord {
    /// The state that a word says.
    #[inline(always)]
    pub fn from_word(word: u64) -> StateWord
        requires in_range { word < 512 }
        ensures { word_of_state result ≡ word }
    {
        if word < LIVE {
            StateWord::Free {
                sequence: word as u8,
            }
        } else {
            StateWord::Live {
                sequence: (word - LIVE) as u8,
            }
        }
    }

    /// The sequence number of the last creation at the index, whether its body is live or not; 0 where there was none.
    #[inline(always)]
    pub fn sequence_of(word: u64) -> u8
        ensures { result ≡ word % 256 }
    {
        (word % LIVE) as u8
    }

    /// The word that says it.
    #[inline(always)]
    pub fn to_word(self) -> u64
        ensures { result ≡ word_of_state self }
    {
        match self {
            StateWord::Live { sequence } => LIVE + u64::from(sequence),
            StateWord::Free { sequence } => u64::from(sequence),
        }
    }
}

/// What the phase word of a body says.
#[derive(Clone, Copy, Debug, PartialEq, Eq)]
pub enum PhaseWord {
    /// It is not in the broad phase, and no batch holds it.
    Out,
    /// It is in the broad phase.
    In,
    /// It was marked for the batch of this attach slot of its layer: it is held while the slot is reserved, and in the
    /// broad phase from when the slot names a tree.
    Joined { slot: u32 },
}

impl PhaseWord {
    /// The phase that a word says.
    #[inline(always)]
    pub fn from_word(word: u64) -> PhaseWord
        requires in_range { word < 2 + 2 ^ 32 }
        ensures { word_of_phase result ≡ word }
    {
        match word {
            0 => PhaseWord::Out,
            1 => PhaseWord::In,
            _ => PhaseWord::Joined {
                slot: (word - JOINED) as u32,
            },
        }
    }

    /// The word that says it.
    #[inline(always)]
    pub fn to_word(self) -> u64
        ensures { result ≡ word_of_phase self }
    {
        match self {
            PhaseWord::Out => 0,
            PhaseWord::In => 1,
            PhaseWord::Joined { slot } => JOINED + u64::from(slot),
        }
    }
}
