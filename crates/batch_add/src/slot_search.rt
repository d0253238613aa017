//! Looking for an empty slot of a layer, and reserving it.
ghost use Rattle.std.specs.Prelude.{◌≡◌, ◌<◌, ◌^◌, ◌==◌, if◌then◌else◌, suc, true, false, length, None, ⊤};
ghost use Rattle.pass_table.specs.declared.turn.Turn.TheVariants.{Done, More};
ghost use Rattle.pass_table.specs.Holding.{IsAtRest};
ghost use Rattle.pass_table.specs.Passes.{view_of, IsOf};
ghost use Rattle.pass_table.specs.Turning.{IsUnderWay};
ghost use Rattle.batch_add.specs.stages.Searching.{IsSearching, HasNoted, IsSearchTurn};

use pass_table::{Label, Operation, Pass, Turn, World, step_17, step_18};
use scene_model::Made;
use word_map::{Name, SlotWord};

/// Looking for an empty slot of a layer, from the first to the last, and reserving it.
///
/// It answers the slot. Where others hold all of them it answers `None`, and `words` says what was found in each.
#[derive(Drop)]
pub(crate) struct SlotSearch {
    pub(crate) layer: u32,
    /// The slot that is looked at next.
    pub(crate) slot: u32,
    /// It was loaded as empty, and is to be exchanged.
    pub(crate) is_empty: bool,
    /// What was found in the slots before it; as long as a layer has slots.
    pub(crate) words: Vec<u64>,
}

impl Operation for SlotSearch {
    ghost use Rattle.batch_add.specs.stages.Searching.{IsSearching, HasSearched, search_left, searching-later};

    type Done = Option<u32>;

    ghost under_way = { IsSearching };

    ghost answers = { HasSearched };

    ghost left = { search_left };

    ghost takes = { λ operation. None };

    ghost reached = { λ operation. None };

    ghost last_label = { None };

    ghost refused = { λ answer. ⊥ };

    ghost says = { λ first start next label. ⊤ };

    ghost entry = { λ operation. None };

    fn turn(&mut self, world: &World, pass: &mut Pass) -> Turn<Option<u32>> {
        self.next_turn(world, pass)
    }

    fn label(&self) -> Option<Label> {
        None
    }

    fn made(&self) -> Option<&Made> {
        None
    }

    ghost may_look = { searching-later };
}

impl SlotSearch {
    /// Begins to look for a slot of a layer; no step is made yet. There are as many words as slots, written over later.
    pub(crate) fn new(world: &World, pass: &Pass, layer: u32, words: Vec<u64>) -> SlotSearch
        requires of { IsOf world.now pass.now }
        requires in_layers { layer < world.now.map.layers }
        requires words { length words.items ≡ world.now.map.slots }
        requires rest { IsAtRest (view_of pass.now) }
        ensures layer { result.layer ≡ layer }
        ensures under_way { IsSearching result (view_of pass.now) result (view_of pass.now) }
    {
        SlotSearch {
            layer,
            slot: 0,
            is_empty: false,
            words,
        }
    }

    /// The turn that comes next.
    fn next_turn(&mut self, world: &World, pass: &mut Pass) -> Turn<Option<u32>>
        requires of { IsOf world.now pass.old }
        requires under_way { IsUnderWay IsSearching self.old (view_of pass.old) }
        ensures of { IsOf world.now pass.new }
        ensures turn { IsSearchTurn result self.old self.new (view_of pass.old) (view_of pass.new) }
    {
        if self.is_empty {
            self.reserve(world, pass)
        } else {
            self.load(world, pass)
        }
    }

    /// The turn that loads the word of the slot.
    fn load(&mut self, world: &World, pass: &mut Pass) -> Turn<Option<u32>>
        requires of { IsOf world.now pass.old }
        requires under_way { IsUnderWay IsSearching self.old (view_of pass.old) }
        requires unread { self.old.is_empty ≡ false }
        ensures of { IsOf world.now pass.new }
        ensures turn { IsSearchTurn result self.old self.new (view_of pass.old) (view_of pass.new) }
    {
        let word = step_17(world, pass, Name::Slot(self.layer, self.slot));
        if word == 0 {
            self.is_empty = true;
            return Turn::More;
        }
        self.note(word)
    }

    /// The turn that reserves the slot, if it is still empty.
    fn reserve(&mut self, world: &World, pass: &mut Pass) -> Turn<Option<u32>>
        requires of { IsOf world.now pass.old }
        requires under_way { IsUnderWay IsSearching self.old (view_of pass.old) }
        requires read { self.old.is_empty ≡ true }
        ensures of { IsOf world.now pass.new }
        ensures turn { IsSearchTurn result self.old self.new (view_of pass.old) (view_of pass.new) }
    {
        let own = SlotWord::Reserved {
            pass: pass.number(),
        }
        .to_word();
        match step_18(world, pass, Name::Slot(self.layer, self.slot), 0, own) {
            Ok(()) => Turn::Done(Some(self.slot)),
            Err(word) => self.note(word),
        }
    }

    /// Notes what was found in the slot, and goes on to the next one, where there is one.
    fn note(&mut self, word: u64) -> Turn<Option<u32>>
        requires below { self.old.slot < length self.old.words.items }
        requires few { length self.old.words.items < 2 ^ 32 }
        ensures noted { HasNoted self.old word self.new }
        ensures turn { result ≡ (if suc self.old.slot == length self.old.words.items then Done None else More) }
    {
        self.words[self.slot as usize] = word;
        self.is_empty = false;
        self.slot += 1;
        if self.slot as usize == self.words.len() {
            return Turn::Done(None);
        }
        Turn::More
    }
}
