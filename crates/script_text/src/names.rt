ghost use Rattle.std.specs.Prelude.{◌≡◌, not, false, [], IfOk, OnOk, OnErr};
ghost use Rattle.script_text.specs.Name.{is_among, add_name};
ghost use Rattle.script_text.specs.Place.{place_of};

use std::alloc::{AllocError, Global};
use std::collections::BTreeMap;
use std::marker::Model;

/// Names, each at a place of its own. Contracts see it as their list, in the order in which they came.
///
/// To find a name takes no more than a few steps for each doubling of their number, whatever the names are.
#[derive(Debug, Drop)]
pub struct Names {
    places: BTreeMap<Vec<u8>, usize>,
}

impl Model for Names {
    ghost use Rattle.std.specs.Prelude.{List, ℕ};

    ghost Value = { List (List ℕ) };

    ghost use Rattle.script_text.specs.Place.{names_of, IsIndex};

    ghost view = { λ n. names_of n.places };

    ghost invariant = { λ n. IsIndex n.places };
}

impl Names {
    /// No names yet.
    #[tactic(auto, using(crate::proofs::Places::index_none))]
    pub fn new(alloc: Global) -> Self
        ensures { result ≡ [] }
    {
        Names {
            places: BTreeMap::new(alloc),
        }
    }

    /// The place of the name that equals a word, and `None` where there is none.
    pub fn place(&self, word: &[u8]) -> Option<usize>
        ensures { result ≡ place_of self.now word.now }
    {
        self.places.get(word).copied()
    }

    /// Whether a word is among the names.
    #[tactic(auto, using(crate::proofs::Places::is_among_by_place))]
    pub fn contains(&self, word: &[u8]) -> bool
        ensures { result ≡ is_among self.now word.now }
    {
        self.place(word).is_some()
    }

    /// Adds a name at the end that is not among them. After an error the names are as before.
    #[tactic(auto, using(crate::proofs::Places::index_same, crate::proofs::Places::names_same))]
    pub fn push_new(&mut self, alloc: Global, word: &[u8]) -> Result<(), AllocError>
        requires { is_among self.old word.now ≡ false }
        ensures ok { OnOk result (self.new ≡ add_name self.old word.now) }
        ensures err { OnErr result (self.new ≡ self.old) }
    {
        let place = self.places.len();
        let name = Vec::from_slice(alloc, word)?;
        self.places.insert(name, place)?;
        Ok(())
    }

    /// Adds a name at the end, where it is not among them, and answers whether it was added. After an error the names
    /// are as before.
    pub fn push(&mut self, alloc: Global, word: &[u8]) -> Result<bool, AllocError>
        ensures ok { OnOk result (self.new ≡ add_name self.old word.now) }
        ensures added { IfOk result (λ added. added ≡ not (is_among self.old word.now)) }
        ensures err { OnErr result (self.new ≡ self.old) }
    {
        if self.contains(word) {
            return Ok(false);
        }
        self.push_new(alloc, word)?;
        Ok(true)
    }
}
