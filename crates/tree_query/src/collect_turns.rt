//! Collecting what a shape touches by turns.
ghost use Rattle.std.specs.Prelude.{◌≡◌, ◌≢◌, ◌≤◌, Some, None, false};
ghost use Rattle.pass_table.specs.Passes.{view_of, IsOf};
ghost use Rattle.pass_table.specs.Turning.{IsUnderWay};
ghost use Rattle.pass_table.specs.declared.turn.Turn.TheVariants.{More};
ghost use Rattle.tree_query.specs.declared.finder.Finder.{Finder as FinderValue};
ghost use Rattle.tree_query.specs.declared.walk.WalkStage.TheVariants.{Ended};
ghost use Rattle.tree_query.specs.Finding.{room_of};
ghost use Rattle.tree_query.specs.stages.CollectTurns.{room_kept, IsCollectGoing, IsCollectTurn, collect_label};

use crate::collect_op::CollectOp;
use crate::finder::Finder;
use crate::walk::{Walk, WalkStage};
use fixed_box::Shape;
use pass_table::{Label, Operation, Pass, Turn, World};
use scene_model::Made;

impl Operation for CollectOp {
    ghost use Rattle.tree_query.specs.stages.CollectTurns.{IsCollectGoing, HasHandedOut, collect_left, collect_label, collect_says, collecting_op-later};

    type Done = Finder;

    ghost under_way = { IsCollectGoing };

    ghost answers = { λ first start last next answer. HasHandedOut first start next answer };

    ghost left = { collect_left };

    ghost takes = { λ operation. None };

    ghost reached = { collect_label };

    ghost last_label = { Some 2 };

    ghost refused = { λ answer. ⊥ };

    ghost says = { collect_says };

    ghost entry = { λ operation. None };

    #[inline(always)]
    fn turn(&mut self, world: &World, pass: &mut Pass) -> Turn<Finder> {
        self.next_turn(world, pass)
    }

    fn label(&self) -> Option<Label> {
        self.walk.label()
    }

    fn made(&self) -> Option<&Made> {
        None
    }

    ghost may_look = { collecting_op-later };
}

impl CollectOp {
    /// Begins to collect what touches a shape in the layers of a mask, bit k for layer k; bits at or above the number of layers
    /// count for nothing. No step is made yet. What the finder held is gone; at the end it is handed out with all candidates,
    /// each with sequence number 0: bodies that are to be checked under their stripes.
    ///
    /// The pass may hold locks and prepared batches, and does not walk. Nobody waits for it, and it waits for nobody.
    pub fn new(world: &World, pass: &mut Pass, shape: &Shape, mask: u8, finder: Finder) -> CollectOp
        requires of { IsOf world.now pass.old }
        requires still { (view_of pass.old).walk.is_on ≡ false }
        requires room { world.now.map.bodies ≤ room_of finder }
        ensures pass { pass.new ≡ pass.old }
        ensures shape { result.walk.shape ≡ shape.now }
        ensures mask { result.walk.mask ≡ mask }
        ensures room { room_kept result.finder ≡ room_of finder }
        ensures under_way { IsCollectGoing result (view_of pass.old) result (view_of pass.new) }
        ensures unlabelled { collect_label result ≡ None }
    {
        let mut finder = finder;
        finder.clear();
        CollectOp {
            walk: Walk::new(world.config(), shape, mask),
            finder: Some(finder),
        }
    }

    /// Hands the finder out.
    fn hand_out(&mut self) -> Finder
        requires { (held : FinderValue) × (self.old.finder ≡ Some held) }
        ensures held { self.old.finder ≡ Some result }
        ensures walk { self.new.walk ≡ self.old.walk }
    {
        match self.finder.take() {
            Some(finder) => finder,
            None => unreachable!(),
        }
    }

    /// A turn of the walk.
    #[inline(always)]
    fn walk_on(&mut self, world: &World, pass: &mut Pass) -> Turn<Finder>
        requires of { IsOf world.now pass.old }
        requires under_way { IsUnderWay IsCollectGoing self.old (view_of pass.old) }
        requires more { self.old.walk.stage ≢ Ended }
        ensures of { IsOf world.now pass.new }
        ensures turn { IsCollectTurn result self.old self.new (view_of pass.old) (view_of pass.new) }
    {
        match &mut self.finder {
            Some(finder) => self.walk.turn(world, pass, finder),
            None => unreachable!(),
        }
        Turn::More
    }

    /// The turn of the stage that it is at.
    #[inline(always)]
    fn next_turn(&mut self, world: &World, pass: &mut Pass) -> Turn<Finder>
        requires of { IsOf world.now pass.old }
        requires under_way { IsUnderWay IsCollectGoing self.old (view_of pass.old) }
        ensures of { IsOf world.now pass.new }
        ensures turn { IsCollectTurn result self.old self.new (view_of pass.old) (view_of pass.new) }
    {
        match self.walk.stage {
            WalkStage::Ended => Turn::Done(self.hand_out()),
            _ => self.walk_on(world, pass),
        }
    }
}
