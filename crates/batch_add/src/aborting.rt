//! Giving up a batch that is prepared.
ghost use Rattle.std.specs.Prelude.{◌≡◌, List, None, ⊤};
ghost use Rattle.core_state.specs.declared.view.Batch.{Batch};
ghost use Rattle.pass_table.specs.Holding.{IsAtRest};
ghost use Rattle.pass_table.specs.Passes.{view_of, IsOf, IsIdle};
ghost use Rattle.batch_add.specs.Prepared.{IsGood};
ghost use Rattle.batch_add.specs.stages.Keeping.{IsBegunFor};
ghost use Rattle.batch_add.specs.stages.Aborting.{kept_of, IsAborting};
ghost use Rattle.batch_add.specs.Answers.{HasAborted};

use crate::giving_up::GivingUp;
use crate::kept_batch::KeptBatch;
use crate::prepared::Prepared;
use pass_table::{Label, Operation, Pass, Turn, World};
use scene_model::Made;

/// Giving a batch up by turns, that was prepared. It holds the batch, so it has to be spent: when it is done, or before, by
/// `leave`.
#[must_use]
pub struct AbortOp {
    pub(crate) number: u32,
    pub(crate) giving: GivingUp,
}

/// What is kept of a batch that is to be given up.
pub(crate) fn kept_of(world: &World, pass: &Pass, batch: Prepared) -> KeptBatch
    requires of { IsOf world.now pass.now }
    requires good { IsGood batch (view_of pass.now) }
    requires rest { IsAtRest (view_of pass.now) }
    ensures kept { result ≡ kept_of batch }
    ensures begun { (before : List Batch) × (some : Batch) × (after : List Batch) × IsBegunFor result (view_of pass.now) before some after }
{
    let marked = batch.indexes.len() as u32;
    let node_count = batch.nodes.len() as u32;
    let Prepared {
        number: _number,
        layer,
        slot,
        indexes,
        nodes,
    } = batch;
    KeptBatch {
        layer,
        slot,
        indexes,
        marked,
        are_placed: true,
        nodes,
        node_count,
    }
}

impl Operation for AbortOp {
    ghost use Rattle.batch_add.specs.stages.GivingUp.{give_left, give_takes};
    ghost use Rattle.batch_add.specs.stages.Aborting.{IsAborting, HasAbortedAny};
    ghost use Rattle.batch_add.specs.stages.AbortLater.{aborting-later};

    type Done = ();

    ghost under_way = { IsAborting };

    ghost answers = { λ first start last next answer. HasAbortedAny first start next };

    ghost left = { λ operation. give_left operation.giving };

    ghost takes = { λ operation. give_takes operation.giving };

    ghost reached = { λ operation. None };

    ghost last_label = { None };

    ghost refused = { λ answer. ⊥ };

    ghost says = { λ first start next label. ⊤ };

    ghost entry = { λ operation. operation.giving.made };

    #[inline(always)]
    fn turn(&mut self, world: &World, pass: &mut Pass) -> Turn<()> {
        self.giving.turn(world, pass)
    }

    fn label(&self) -> Option<Label> {
        None
    }

    fn made(&self) -> Option<&Made> {
        self.giving.made.as_ref()
    }

    ghost may_look = { aborting-later };
}

impl AbortOp {
    /// Begins to give the batch up; no step is made yet. Neither it nor a turn takes memory.
    pub fn new(world: &World, pass: &mut Pass, batch: Prepared) -> AbortOp
        requires idle { IsIdle world.now pass.old }
        requires good { IsGood batch (view_of pass.old) }
        ensures pass { pass.new ≡ pass.old }
        ensures kept { result.giving.kept ≡ kept_of batch }
        ensures under_way { IsAborting result (view_of pass.old) result (view_of pass.new) }
    {
        let number = batch.number;
        let kept = kept_of(world, pass, batch);
        AbortOp {
            number,
            giving: GivingUp::new(world, pass, kept),
        }
    }

    /// The number of the pass whose batch it is.
    pub fn pass_number(&self) -> u32
        ensures { result ≡ self.now.number }
    {
        self.number
    }

    /// Leaves it as it is. What is not given up yet stays with the pass, for good.
    pub fn leave(self) {
        let AbortOp {
            number: _number,
            giving: _giving,
        } = self;
    }
}
