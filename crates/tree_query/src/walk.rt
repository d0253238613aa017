//! What a walk by turns keeps, and where it goes from what it reads.
ghost use Rattle.std.specs.Prelude.{◌≡◌, ◌≢◌, ℕ, ◌+◌, ◌^◌, ◌<◌, ◌≤◌, List, [], true, false};
ghost use Rattle.word_map.specs.declared.config.Config.{Config as Sizes};
ghost use Rattle.core_state.specs.declared.view.Waiting.{Waiting};
ghost use Rattle.core_state.specs.Walking.{Query, next_node, next_child, roots_in, advance_from, at_child};
ghost use Rattle.word_map.specs.declared.name.Name.TheVariants.{Slot, Main};
ghost use Rattle.tree_query.specs.Collecting.{nodes_in};
ghost use Rattle.tree_query.specs.declared.walk.WalkStage.TheVariants.{Word, Child};
ghost use Rattle.tree_query.specs.stages.WalkPlaces.{IsSized, is_at_side, IsAtPlace, IsNextLayer, words_left, words_at, words_from, KeepsPlan, KeepsWord, BeginsWith};
ghost use Rattle.tree_query.specs.stages.WalkTurns.{walk_label};

use crate::checking::is_asked;
use arrayvec::ArrayVec;
use fixed_box::Shape;
use pass_table::Label;
use word_map::{Config, SlotWord};

/// How far a walk is: what its next turn does.
#[derive(Clone, Copy)]
pub(crate) enum WalkStage {
    /// The walk begins.
    Begin,
    /// A slot or the main word of a layer is read.
    Word,
    /// A child of a node is read.
    Child,
    /// The sides of its bound are read, one after the other.
    LowX,
    LowY,
    LowZ,
    HighX,
    HighY,
    HighZ,
    /// All is read, and the walk ends.
    End,
    /// The walk has ended.
    Ended,
}

/// A walk by turns, which collects what a shape touches. It is changed in place, and takes no memory.
#[derive(Drop)]
pub(crate) struct Walk {
    pub(crate) shape: Shape,
    /// Bit k stands for layer k.
    pub(crate) mask: u8,
    /// The lowest asked layer, or the number of layers.
    pub(crate) lowest: u32,
    /// How many layers the world has, and how many slots each.
    pub(crate) layers: u32,
    pub(crate) slots: u32,
    pub(crate) stage: WalkStage,
    /// The layer and the slot of the word that is read next. Past the last slot it is the main word.
    pub(crate) layer: u32,
    pub(crate) slot: u32,
    /// The node and its child that are read, the word of the child, and the sides of its bound that were read.
    pub(crate) node: u32,
    pub(crate) child: u32,
    pub(crate) word: u64,
    pub(crate) x0: u64,
    pub(crate) y0: u64,
    pub(crate) z0: u64,
    pub(crate) x1: u64,
    pub(crate) y1: u64,
    /// The nodes that wait, the next one last.
    pub(crate) stack: ArrayVec<u32, 40>,
}

/// The first layer from one on that is asked, or the number of layers.
fn next_layer(mask: u8, layers: u32, from: u32) -> u32
    requires { from ≤ layers }
    ensures { IsNextLayer mask layers from result }
{
    let mut layer = from;
    while layer < layers && !is_asked(mask, layer) {
        layer += 1;
    }
    layer
}

impl Walk {
    /// A walk of the layers of a mask, in a world of these sizes, that has not begun.
    pub(crate) fn new(config: Config, shape: &Shape, mask: u8) -> Walk
        ensures { BeginsWith result config shape.now mask }
    {
        let lowest = next_layer(mask, config.layers, 0);
        Walk {
            shape: *shape,
            mask,
            lowest,
            layers: config.layers,
            slots: config.slots,
            stage: WalkStage::Begin,
            layer: lowest,
            slot: 0,
            node: 0,
            child: 0,
            word: 0,
            x0: 0,
            y0: 0,
            z0: 0,
            x1: 0,
            y1: 0,
            stack: ArrayVec::new(),
        }
    }

    /// The last label that it reached: `slots`, 0, where of the lowest asked layer the main word is next; `root`, 1, where that
    /// was read; `walked`, 2, where the walk has ended.
    pub(crate) fn label(&self) -> Option<Label>
        ensures { result ≡ walk_label self.now }
    {
        match self.stage {
            WalkStage::Begin => None,
            WalkStage::Ended => Some(Label::new(2)),
            WalkStage::Word => {
                if self.lowest < self.layer {
                    Some(Label::new(1))
                } else if self.slot == self.slots {
                    Some(Label::new(0))
                } else {
                    None
                }
            }
            _ => {
                if self.lowest < self.layer {
                    Some(Label::new(1))
                } else {
                    None
                }
            }
        }
    }

    /// Where a node is done the walk goes on to the node that waits, to the next word, or to its end.
    #[inline(always)]
    fn leave_node(&mut self)
        ensures keeps { KeepsWord self.old self.new }
        ensures none { is_at_side self.new.stage ≡ false }
        ensures there { (c : Sizes) (stack : List Waiting) → IsSized c self.old → self.old.stack.items ≡ nodes_in stack → IsAtPlace c self.new (next_node (words_left c self.old) stack) }
    {
        match self.stack.pop() {
            Some(node) => {
                self.node = node;
                self.child = 0;
                self.stage = WalkStage::Child;
            }
            None => {
                self.stage = if self.layer < self.layers {
                    WalkStage::Word
                } else {
                    WalkStage::End
                };
            }
        }
    }

    /// Where a child is done the walk goes on to the next one, or leaves the node.
    #[inline(always)]
    pub(crate) fn leave_child(&mut self)
        ensures keeps { KeepsWord self.old self.new }
        ensures none { is_at_side self.new.stage ≡ false }
        ensures there { (c : Sizes) (stack : List Waiting) (level : ℕ) → IsSized c self.old → self.old.stack.items ≡ nodes_in stack
            → IsAtPlace c self.new (next_child (words_left c self.old) stack self.old.node level self.old.child) }
    {
        if self.child < 3 {
            self.child += 1;
            self.stage = WalkStage::Child;
        } else {
            self.leave_node();
        }
    }

    /// The walk goes on to the root of a tree.
    #[inline(always)]
    fn enter(&mut self, root: u32)
        ensures { self.new ≡ record self.old { node = root; child = 0; stage = Child } }
    {
        self.node = root;
        self.child = 0;
        self.stage = WalkStage::Child;
    }

    /// Where the word of a slot leads: to the root of the tree that it names, or to the next word.
    #[inline(always)]
    pub(crate) fn take_slot(&mut self, word: u64)
        requires stage { self.old.stage ≡ Word }
        requires low { self.old.slot < self.old.slots }
        requires in_range { word < 1024 + 2 ^ 32 }
        ensures keeps { KeepsPlan self.old self.new }
        ensures layer { self.new.layer ≡ self.old.layer }
        ensures none { is_at_side self.new.stage ≡ false }
        ensures there { (c : Sizes) → self.old.layer < c.layers → self.old.stack.items ≡ []
            → IsAtPlace c self.new (next_node (words_at c self.old.mask self.old.layer (self.old.slot + 1)) (roots_in (Slot self.old.layer self.old.slot) word)) }
    {
        self.slot += 1;
        match SlotWord::from_word(word) {
            SlotWord::Tree { root } => self.enter(root),
            SlotWord::Reserved { .. } => {}
            SlotWord::Empty => {}
        }
    }

    /// Where the main word of a layer leads: to the root that it names, to the first word of the next asked layer, or to the end.
    #[inline(always)]
    pub(crate) fn take_main(&mut self, word: u64)
        requires stage { self.old.stage ≡ Word }
        requires inside { self.old.layer < self.old.layers }
        requires in_range { word ≤ 2 ^ 32 }
        ensures keeps { KeepsPlan self.old self.new }
        ensures layer { (self.old.layer < self.new.layer) × (self.new.layer ≤ self.old.layers) }
        ensures none { is_at_side self.new.stage ≡ false }
        ensures there { (c : Sizes) → IsSized c self.old → self.old.stack.items ≡ []
            → IsAtPlace c self.new (next_node (words_from c self.old.mask (self.old.layer + 1)) (roots_in (Main self.old.layer) word)) }
    {
        self.layer = next_layer(self.mask, self.layers, self.layer + 1);
        self.slot = 0;
        if word > 0 {
            self.enter((word - 1) as u32);
        } else if self.layer >= self.layers {
            self.stage = WalkStage::End;
        }
    }

    /// Where the word of a child leads: to the first side of its bound, or where there is no child past it.
    #[inline(always)]
    pub(crate) fn take_child(&mut self, word: u64)
        ensures keeps { KeepsWord self.old self.new }
        ensures side { is_at_side self.new.stage ≡ true → (self.new.node ≡ self.old.node) × (self.new.child ≡ self.old.child) × (self.new.word ≡ word) × (word ≢ 0) }
        ensures there { (c : Sizes) (query : Query) (stack : List Waiting) (level : ℕ) → IsSized c self.old → self.old.stack.items ≡ nodes_in stack
            → IsAtPlace c self.new (advance_from query (words_left c self.old) stack (at_child self.old.node level self.old.child) word) }
    {
        if word == 0 {
            self.leave_child();
        } else {
            self.word = word;
            self.stage = WalkStage::LowX;
        }
    }
}
