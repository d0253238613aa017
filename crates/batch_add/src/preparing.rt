//! Preparing a batch by turns: the turns of its parts, one after the other.
ghost use Rattle.std.specs.Prelude.{◌≡◌, ◌≢◌, ◌<◌, List, [], length, All, Some};
ghost use Rattle.core_state.specs.declared.view.Batch.{Batch};
ghost use Rattle.pass_table.specs.Holding.{IsAtRest};
ghost use Rattle.pass_table.specs.Passes.{view_of, IsOf};
ghost use Rattle.pass_table.specs.Turning.{IsUnderWay, Labelled};
ghost use Rattle.batch_add.specs.declared.prepare_op.PrepareStage.TheVariants.{Searching, TakingNodes, Marking as MarkingStage, Drawing, GivingUp as GivingUpStage};
ghost use Rattle.batch_add.specs.stages.Marking.{IsForNewest};
ghost use Rattle.batch_add.specs.stages.DrawStages.{IsToDraw};
ghost use Rattle.batch_add.specs.stages.Keeping.{IsBegunFor};
ghost use Rattle.batch_add.specs.stages.Preparing.{IsPreparing, IsPrepareTurn, CanPlan, BeginsNodes, BeginsMarks, BeginsTree, BeginsUndoing, HasHandedOver, kept_of, refusal_of, label_of, KeepsLabel};

use crate::answers::{PrepareRefused, SlotWords};
use crate::giving_up::GivingUp;
use crate::kept_batch::KeptBatch;
use crate::mark_op::{MarkRefused, Marking};
use crate::node_taking::NodeTaking;
use crate::prepare_op::{Plans, PrepareOp, PrepareStage, Undone};
use crate::prepared::Prepared;
use crate::tree_drawing::TreeDrawing;
use pass_table::{Label, Operation, Pass, Turn, World};
use scene_model::Made;
use std::mem;

impl Operation for PrepareOp {
    ghost use Rattle.batch_add.specs.stages.Preparing.{IsPreparing, HasPreparedOr, prepare_left, prepare_takes, label_of, label_says, entry_of};
    ghost use Rattle.pass_table.specs.Labels.{IsRefusal};
    ghost use Rattle.batch_add.specs.stages.PrepareLater.{preparing-later};

    type Done = Result<Prepared, PrepareRefused>;

    ghost under_way = { IsPreparing };

    ghost answers = { λ first start last next answer. HasPreparedOr first start next answer };

    ghost left = { prepare_left };

    ghost takes = { prepare_takes };

    ghost reached = { label_of };

    ghost last_label = { Some 0 };

    ghost refused = { λ answer. IsRefusal answer };

    ghost says = { label_says };

    ghost entry = { entry_of };

    fn turn(&mut self, world: &World, pass: &mut Pass) -> Turn<Result<Prepared, PrepareRefused>> {
        self.next_turn(world, pass)
    }

    fn label(&self) -> Option<Label> {
        match self.stage {
            // All bodies are marked.
            PrepareStage::Drawing => Some(Label::new(0)),
            _ => None,
        }
    }

    fn made(&self) -> Option<&Made> {
        match self.stage {
            PrepareStage::Marking => self.marking.made.as_ref(),
            PrepareStage::GivingUp { .. } => match &self.giving {
                Some(giving) => giving.made.as_ref(),
                None => None,
            },
            _ => None,
        }
    }

    ghost may_look = { preparing-later };
}

impl PrepareOp {
    /// The turn of the part that is under way.
    fn next_turn(
        &mut self,
        world: &World,
        pass: &mut Pass,
    ) -> Turn<Result<Prepared, PrepareRefused>>
        requires of { IsOf world.now pass.old }
        requires under_way { IsUnderWay IsPreparing self.old (view_of pass.old) }
        ensures of { IsOf world.now pass.new }
        ensures turn { IsPrepareTurn result self.old self.new (view_of pass.old) (view_of pass.new) }
        ensures labelled { Labelled result (label_of self.old) (label_of self.new) }
        ensures label { KeepsLabel result self.old self.new (view_of pass.old) (view_of pass.new) }
    {
        match self.stage {
            PrepareStage::Empty => Turn::Done(Err(PrepareRefused::Empty)),
            PrepareStage::Searching => self.search_slot(world, pass),
            PrepareStage::TakingNodes => self.take_nodes(world, pass),
            PrepareStage::Marking => self.mark_bodies(world, pass),
            PrepareStage::Drawing => self.draw_tree(world, pass),
            PrepareStage::GivingUp { undone } => self.give_up(world, pass, undone),
        }
    }
}

impl PrepareOp {
    // ---- the turns of the parts

    /// A turn of looking for a slot.
    fn search_slot(
        &mut self,
        world: &World,
        pass: &mut Pass,
    ) -> Turn<Result<Prepared, PrepareRefused>>
        requires of { IsOf world.now pass.old }
        requires under_way { IsUnderWay IsPreparing self.old (view_of pass.old) }
        requires stage { self.old.stage ≡ Searching }
        ensures of { IsOf world.now pass.new }
        ensures turn { IsPrepareTurn result self.old self.new (view_of pass.old) (view_of pass.new) }
        ensures labelled { Labelled result (label_of self.old) (label_of self.new) }
        ensures label { KeepsLabel result self.old self.new (view_of pass.old) (view_of pass.new) }
    {
        match self.search.turn(world, pass) {
            Turn::Done(Some(slot)) => {
                self.begin_nodes(world, pass, slot);
                Turn::More
            }
            Turn::Done(None) => {
                let words = mem::replace(&mut self.search.words, Vec::new(self.alloc));
                Turn::Done(Err(PrepareRefused::NoSlot {
                    words: SlotWords::new(words),
                }))
            }
            Turn::More => Turn::More,
            Turn::Again { lock, word } => Turn::Again { lock, word },
        }
    }

    /// A turn of taking nodes.
    fn take_nodes(
        &mut self,
        world: &World,
        pass: &mut Pass,
    ) -> Turn<Result<Prepared, PrepareRefused>>
        requires of { IsOf world.now pass.old }
        requires under_way { IsUnderWay IsPreparing self.old (view_of pass.old) }
        requires stage { self.old.stage ≡ TakingNodes }
        ensures of { IsOf world.now pass.new }
        ensures turn { IsPrepareTurn result self.old self.new (view_of pass.old) (view_of pass.new) }
        ensures labelled { Labelled result (label_of self.old) (label_of self.new) }
        ensures label { KeepsLabel result self.old self.new (view_of pass.old) (view_of pass.new) }
    {
        match self.taking.turn(world, pass) {
            Turn::Done(Ok(())) => {
                self.begin_marks(world, pass);
                Turn::More
            }
            Turn::Done(Err(free)) => {
                self.begin_undoing(world, pass, Undone::NoNodes { free });
                Turn::More
            }
            Turn::More => Turn::More,
            Turn::Again { lock, word } => Turn::Again { lock, word },
        }
    }

    /// A turn of marking the bodies.
    fn mark_bodies(
        &mut self,
        world: &World,
        pass: &mut Pass,
    ) -> Turn<Result<Prepared, PrepareRefused>>
        requires of { IsOf world.now pass.old }
        requires under_way { IsUnderWay IsPreparing self.old (view_of pass.old) }
        requires stage { self.old.stage ≡ MarkingStage }
        ensures of { IsOf world.now pass.new }
        ensures turn { IsPrepareTurn result self.old self.new (view_of pass.old) (view_of pass.new) }
        ensures labelled { Labelled result (label_of self.old) (label_of self.new) }
        ensures label { KeepsLabel result self.old self.new (view_of pass.old) (view_of pass.new) }
    {
        match self.marking.turn(world, pass) {
            Turn::Done(Ok(())) => {
                self.begin_tree(pass);
                Turn::More
            }
            Turn::Done(Err(refused)) => {
                let at = self.marking.marked;
                self.begin_undoing(world, pass, Undone::Mark { at, refused });
                Turn::More
            }
            Turn::More => Turn::More,
            Turn::Again { lock, word } => Turn::Again { lock, word },
        }
    }

    /// A turn of drawing the tree.
    fn draw_tree(
        &mut self,
        world: &World,
        pass: &mut Pass,
    ) -> Turn<Result<Prepared, PrepareRefused>>
        requires of { IsOf world.now pass.old }
        requires under_way { IsUnderWay IsPreparing self.old (view_of pass.old) }
        requires stage { self.old.stage ≡ Drawing }
        ensures of { IsOf world.now pass.new }
        ensures turn { IsPrepareTurn result self.old self.new (view_of pass.old) (view_of pass.new) }
        ensures labelled { Labelled result (label_of self.old) (label_of self.new) }
        ensures label { KeepsLabel result self.old self.new (view_of pass.old) (view_of pass.new) }
    {
        let Some(drawing) = &mut self.drawing else {
            unreachable!()
        };
        match drawing.turn(world, pass) {
            Turn::Done(()) => {
                let Some(drawn) = mem::replace(&mut self.drawing, None) else {
                    unreachable!()
                };
                let indexes = mem::replace(&mut self.indexes, Vec::new(self.alloc));
                Turn::Done(Ok(Prepared {
                    number: pass.number(),
                    layer: self.layer,
                    slot: self.slot,
                    indexes,
                    nodes: drawn.nodes,
                }))
            }
            Turn::More => Turn::More,
            Turn::Again { lock, word } => Turn::Again { lock, word },
        }
    }

    /// A turn of undoing what was done.
    fn give_up(
        &mut self,
        world: &World,
        pass: &mut Pass,
        undone: Undone,
    ) -> Turn<Result<Prepared, PrepareRefused>>
        requires of { IsOf world.now pass.old }
        requires under_way { IsUnderWay IsPreparing self.old (view_of pass.old) }
        requires stage { self.old.stage ≡ GivingUpStage undone }
        ensures of { IsOf world.now pass.new }
        ensures turn { IsPrepareTurn result self.old self.new (view_of pass.old) (view_of pass.new) }
        ensures labelled { Labelled result (label_of self.old) (label_of self.new) }
        ensures label { KeepsLabel result self.old self.new (view_of pass.old) (view_of pass.new) }
    {
        let Some(giving) = &mut self.giving else {
            unreachable!()
        };
        match giving.turn(world, pass) {
            Turn::Done(()) => Turn::Done(Err(refusal(self.taking.count, undone))),
            Turn::More => Turn::More,
            Turn::Again { lock, word } => Turn::Again { lock, word },
        }
    }

    // ---- what comes next

    /// Goes on to take nodes for the batch of a slot that is reserved.
    pub(crate) fn begin_nodes(&mut self, world: &World, pass: &mut Pass, slot: u32)
        requires of { IsOf world.now pass.old }
        requires some { 0 < self.old.taking.count }
        requires nodes { length self.old.taking.nodes.items ≡ self.old.taking.count }
        requires preparing { (view_of pass.old).batches ≢ [] }
        requires rest { IsAtRest (view_of pass.old) }
        ensures pass { pass.new ≡ pass.old }
        ensures begins { BeginsNodes self.old slot self.new (view_of pass.old) }
    {
        let nodes = mem::replace(&mut self.taking.nodes, Vec::new(self.alloc));
        self.taking = NodeTaking::new(world, pass, self.taking.count, nodes);
        self.slot = slot;
        self.stage = PrepareStage::TakingNodes;
    }

    /// Goes on to mark the bodies.
    pub(crate) fn begin_marks(&mut self, world: &World, pass: &mut Pass)
        requires of { IsOf world.now pass.old }
        requires some { 0 < length self.old.marking.ids.items }
        requires below { All (λ id. id.index < world.now.map.bodies) self.old.marking.ids.items }
        requires room { length self.old.marking.bodies.items ≡ length self.old.marking.ids.items }
        requires rest { IsAtRest (view_of pass.old) }
        requires newest { (before : List Batch) × (batch : Batch) × IsForNewest self.old.layer self.old.slot (view_of pass.old) before batch }
        ensures pass { pass.new ≡ pass.old }
        ensures begins { BeginsMarks self.old self.new (view_of pass.old) }
    {
        let ids = mem::replace(&mut self.marking.ids, Vec::new(self.alloc));
        let bodies = mem::replace(&mut self.marking.bodies, Vec::new(self.alloc));
        self.marking = Marking::new(world, pass, self.layer, self.slot, ids, bodies);
        self.stage = PrepareStage::Marking;
    }

    /// Goes on to draw the tree over the bodies, which are marked, in the nodes.
    pub(crate) fn begin_tree(&mut self, pass: &Pass)
        requires rest { IsAtRest (view_of pass.now) }
        requires plans { CanPlan (length self.old.marking.bodies.items) self.old.plans }
        requires batch { IsToDraw (view_of pass.now) self.old.marking.bodies.items self.old.taking.nodes.items }
        ensures begins { BeginsTree self.old self.new (view_of pass.now) }
    {
        let nodes = mem::replace(&mut self.taking.nodes, Vec::new(self.alloc));
        let bodies = mem::replace(&mut self.marking.bodies, Vec::new(self.alloc));
        match mem::replace(&mut self.plans, None) {
            Some(Plans { planner, bounds }) => {
                self.drawing = Some(TreeDrawing::new(pass, planner, bounds, bodies, nodes));
            }
            None => unreachable!(),
        }
        self.stage = PrepareStage::Drawing;
    }

    /// Goes on to undo what was done, for this reason.
    pub(crate) fn begin_undoing(&mut self, world: &World, pass: &mut Pass, undone: Undone)
        requires of { IsOf world.now pass.old }
        requires begun { (before : List Batch) × (batch : Batch) × IsBegunFor (kept_of self.old undone) (view_of pass.old) before batch [] }
        ensures pass { pass.new ≡ pass.old }
        ensures begins { BeginsUndoing self.old undone self.new (view_of pass.old) }
    {
        let kept = self.hand_over(undone);
        self.giving = Some(GivingUp::new(world, pass, kept));
        self.stage = PrepareStage::GivingUp { undone };
    }

    /// Hands over what is kept of the batch that is to be given up for this reason. Its lists are the operation's no more.
    pub(crate) fn hand_over(&mut self, undone: Undone) -> KeptBatch
        ensures kept { result ≡ kept_of self.old undone }
        ensures rest { HasHandedOver self.old self.new }
    {
        let indexes = mem::replace(&mut self.indexes, Vec::new(self.alloc));
        let nodes = mem::replace(&mut self.taking.nodes, Vec::new(self.alloc));
        let (marked, node_count) = match undone {
            Undone::NoNodes { .. } => (0, 0),
            Undone::Mark { at, .. } => (at, self.taking.count),
        };
        KeptBatch {
            layer: self.layer,
            slot: self.slot,
            indexes,
            marked,
            are_placed: false,
            nodes,
            node_count,
        }
    }
}

/// The refusal once all is undone, of a batch whose tree needs so many nodes.
pub(crate) fn refusal(need: u32, undone: Undone) -> PrepareRefused
    ensures { result ≡ refusal_of need undone }
{
    match undone {
        Undone::NoNodes { free } => PrepareRefused::NoNodes { need, free },
        Undone::Mark { at, refused } => match refused {
            MarkRefused::Gone { state } => PrepareRefused::Gone { at, state },
            MarkRefused::Held { slot } => PrepareRefused::Held { at, slot },
            MarkRefused::AlreadyIn { phase } => PrepareRefused::AlreadyIn { at, phase },
            MarkRefused::WrongLayer { layer } => PrepareRefused::WrongLayer { at, layer },
        },
    }
}
