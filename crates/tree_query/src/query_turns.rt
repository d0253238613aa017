//! Asking which bodies touch a shape by turns.
ghost use Rattle.std.specs.Prelude.{◌≡◌, ◌≢◌, ◌≤◌, Some, None};
ghost use Rattle.pass_table.specs.Passes.{view_of, IsOf, IsIdle};
ghost use Rattle.pass_table.specs.Turning.{IsUnderWay};
ghost use Rattle.tree_query.specs.declared.finder.Finder.{Finder as FinderValue};
ghost use Rattle.tree_query.specs.declared.walk.WalkStage.TheVariants.{Ended};
ghost use Rattle.tree_query.specs.Finding.{room_of};
ghost use Rattle.tree_query.specs.stages.CollectTurns.{room_kept};
ghost use Rattle.tree_query.specs.stages.QueryStages.{IsQueryGoing, IsQueryTurn, IsChecksTurn, query_label};

use crate::checks::Checks;
use crate::finder::Finder;
use crate::query_op::QueryOp;
use crate::walk::{Walk, WalkStage};
use fixed_box::Shape;
use pass_table::{Label, Operation, Pass, Turn, World};
use scene_model::Made;

impl Operation for QueryOp {
    ghost use Rattle.tree_query.specs.stages.QueryStages.{IsQueryGoing, HasAnswered, query_left, query_takes, query_label, query_says};
    ghost use Rattle.tree_query.specs.stages.QueryLater.{querying-later};

    type Done = Finder;

    ghost under_way = { IsQueryGoing };

    ghost answers = { λ first start last next answer. HasAnswered first start next answer };

    ghost left = { query_left };

    ghost takes = { query_takes };

    ghost reached = { query_label };

    ghost last_label = { Some 2 };

    ghost refused = { λ answer. ⊥ };

    ghost says = { query_says };

    ghost entry = { λ operation. None };

    #[inline(always)]
    fn turn(&mut self, world: &World, pass: &mut Pass) -> Turn<Finder> {
        self.next_turn(world, pass)
    }

    fn label(&self) -> Option<Label> {
        self.walk.label()
    }

    fn made(&self) -> Option<&Made> {
        None
    }

    ghost may_look = { querying-later };
}

impl QueryOp {
    /// Begins to ask which bodies in the layers of a mask touch a shape, bit k for layer k; bits at or above the number of
    /// layers count for nothing. No step is made yet. What the finder held is gone; at the end it is handed out with the ids
    /// of the bodies that were found.
    ///
    /// The pass holds no lock, is in the middle of nothing, and does not walk. A turn asks to be made again only while another
    /// pass writes under the stripe of a candidate.
    pub fn new(world: &World, pass: &mut Pass, shape: &Shape, mask: u8, finder: Finder) -> QueryOp
        requires idle { IsIdle world.now pass.old }
        requires room { world.now.map.bodies ≤ room_of finder }
        ensures pass { pass.new ≡ pass.old }
        ensures shape { result.walk.shape ≡ shape.now }
        ensures mask { result.walk.mask ≡ mask }
        ensures room { room_kept result.finder ≡ room_of finder }
        ensures under_way { IsQueryGoing result (view_of pass.old) result (view_of pass.new) }
        ensures unlabelled { query_label result ≡ None }
    {
        let mut finder = finder;
        finder.clear();
        QueryOp {
            walk: Walk::new(world.config(), shape, mask),
            checks: Checks::new(),
            finder: Some(finder),
        }
    }

    /// Hands the finder out.
    fn hand_out(&mut self) -> Finder
        requires { (held : FinderValue) × (self.old.finder ≡ Some held) }
        ensures held { self.old.finder ≡ Some result }
        ensures rest { self.new ≡ record self.old { finder = None } }
    {
        match self.finder.take() {
            Some(finder) => finder,
            None => unreachable!(),
        }
    }

    /// A turn of the walk.
    #[inline(always)]
    fn walk_on(&mut self, world: &World, pass: &mut Pass) -> Turn<Finder>
        requires of { IsOf world.now pass.old }
        requires under_way { IsUnderWay IsQueryGoing self.old (view_of pass.old) }
        requires more { self.old.walk.stage ≢ Ended }
        ensures of { IsOf world.now pass.new }
        ensures turn { IsQueryTurn result self.old self.new (view_of pass.old) (view_of pass.new) }
    {
        match &mut self.finder {
            Some(finder) => self.walk.turn(world, pass, finder),
            None => unreachable!(),
        }
        Turn::More
    }

    /// A turn of the check of candidates.
    #[inline(always)]
    fn check_turn(&mut self, world: &World, pass: &mut Pass) -> Turn<()>
        requires of { IsOf world.now pass.old }
        requires under_way { IsUnderWay IsQueryGoing self.old (view_of pass.old) }
        requires walked { self.old.walk.stage ≡ Ended }
        ensures of { IsOf world.now pass.new }
        ensures turn { IsChecksTurn result self.old self.new (view_of pass.old) (view_of pass.new) }
    {
        match &mut self.finder {
            Some(finder) => {
                self.checks
                    .turn(world, pass, &self.walk.shape, self.walk.mask, finder)
            }
            None => unreachable!(),
        }
    }

    /// A turn of the check of candidates. After the last one the finder is handed out.
    #[inline(always)]
    fn check_on(&mut self, world: &World, pass: &mut Pass) -> Turn<Finder>
        requires of { IsOf world.now pass.old }
        requires under_way { IsUnderWay IsQueryGoing self.old (view_of pass.old) }
        requires walked { self.old.walk.stage ≡ Ended }
        ensures of { IsOf world.now pass.new }
        ensures turn { IsQueryTurn result self.old self.new (view_of pass.old) (view_of pass.new) }
    {
        match self.check_turn(world, pass) {
            Turn::Done(()) => Turn::Done(self.hand_out()),
            Turn::More => Turn::More,
            Turn::Again { lock, word } => Turn::Again { lock, word },
        }
    }

    /// The turn of the stage that it is at.
    #[inline(always)]
    fn next_turn(&mut self, world: &World, pass: &mut Pass) -> Turn<Finder>
        requires of { IsOf world.now pass.old }
        requires under_way { IsUnderWay IsQueryGoing self.old (view_of pass.old) }
        ensures of { IsOf world.now pass.new }
        ensures turn { IsQueryTurn result self.old self.new (view_of pass.old) (view_of pass.new) }
    {
        match self.walk.stage {
            WalkStage::Ended => self.check_on(world, pass),
            _ => self.walk_on(world, pass),
        }
    }
}
