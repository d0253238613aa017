//! The way up from a location of the body that is moved, step by step: at each place six sides are widened, and then the
//! parent of the node is loaded.
ghost use Rattle.std.specs.Prelude.{◌≡◌, ◌<◌, ◌≤◌, ◌+◌, ℕ, Some};
ghost use Rattle.pass_table.specs.Passes.{view_of, IsOf};
ghost use Rattle.widen_bounds.specs.stages.Climbing.{ClimbsFor, IsClimbTurn};

use fixed_box::FixBox;
use pass_table::{Pass, World, step_34, step_35, step_36};
use word_map::{LocationWord, Name};

/// How far the way up from a location is.
#[derive(Clone, Copy)]
pub(crate) struct Climb {
    /// The place that it is at: this child of this node.
    pub(crate) node: u32,
    pub(crate) child: u32,
    /// So many places are below it on the way.
    pub(crate) level: u32,
    /// So many sides are widened here. After all six the parent of the node is loaded.
    pub(crate) side: u32,
}

impl Climb {
    /// The way up that begins at a place.
    pub(crate) fn new(node: u32, child: u32) -> Climb
        ensures result { result ≡ record { node = node; child = child; level = 0; side = 0 } }
    {
        Climb {
            node,
            child,
            level: 0,
            side: 0,
        }
    }

    /// One step on the way up. It answers how far the way is then, and `None` where it is closed.
    pub(crate) fn go_up(self, world: &World, pass: &mut Pass, target: &FixBox) -> Option<Climb>
        ghost index: { ℕ }
        requires of { IsOf world.now pass.old }
        requires under_way { ClimbsFor index target.now self (view_of pass.old) }
        ensures of { IsOf world.now pass.new }
        ensures turn { IsClimbTurn index target.now self result (view_of pass.old) (view_of pass.new) }
    {
        if self.side < 3 {
            Some(self.widen_low(world, pass, target))
        } else if self.side < 6 {
            Some(self.widen_high(world, pass, target))
        } else {
            self.load_parent(world, pass, target)
        }
    }

    /// Widens the next side, one of the low ones.
    fn widen_low(self, world: &World, pass: &mut Pass, target: &FixBox) -> Climb
        ghost index: { ℕ }
        requires of { IsOf world.now pass.old }
        requires under_way { ClimbsFor index target.now self (view_of pass.old) }
        requires side { self.side < 3 }
        ensures of { IsOf world.now pass.new }
        ensures turn { IsClimbTurn index target.now self (Some result) (view_of pass.old) (view_of pass.new) }
    {
        let words = target.to_words();
        let name = Name::Bound(self.node, self.child, self.side);
        step_34(world, pass, name, words[self.side as usize]);
        self.with_side()
    }

    /// Widens the next side, one of the high ones.
    fn widen_high(self, world: &World, pass: &mut Pass, target: &FixBox) -> Climb
        ghost index: { ℕ }
        requires of { IsOf world.now pass.old }
        requires under_way { ClimbsFor index target.now self (view_of pass.old) }
        requires low { 3 ≤ self.side }
        requires side { self.side < 6 }
        ensures of { IsOf world.now pass.new }
        ensures turn { IsClimbTurn index target.now self (Some result) (view_of pass.old) (view_of pass.new) }
    {
        let words = target.to_words();
        let name = Name::Bound(self.node, self.child, self.side);
        step_35(world, pass, name, words[self.side as usize]);
        self.with_side()
    }

    /// With a side more.
    fn with_side(self) -> Climb
        requires side { self.side < 6 }
        ensures result { result ≡ record self { side = 1 + self.side } }
    {
        Climb {
            side: self.side + 1,
            ..self
        }
    }

    /// Loads the parent of the node. The way goes on at the place that it names, if any.
    fn load_parent(self, world: &World, pass: &mut Pass, target: &FixBox) -> Option<Climb>
        ghost index: { ℕ }
        requires of { IsOf world.now pass.old }
        requires under_way { ClimbsFor index target.now self (view_of pass.old) }
        requires side { 6 ≤ self.side }
        ensures of { IsOf world.now pass.new }
        ensures turn { IsClimbTurn index target.now self result (view_of pass.old) (view_of pass.new) }
    {
        let parent = step_36(world, pass, Name::Parent(self.node));
        match LocationWord::from_word(parent) {
            LocationWord::Nowhere => None,
            LocationWord::At { node, child } => Some(Climb {
                node,
                child,
                level: self.level + 1,
                side: 0,
            }),
        }
    }
}
