//! Batches that are attached or given up.
ghost use Rattle.std.specs.Prelude.{◌≡◌};
ghost use Rattle.pass_table.specs.Passes.{view_of, IsIdle};
ghost use Rattle.batch_add.specs.declared.prepared_list.PreparedList.{PreparedList};
ghost use Rattle.batch_add.specs.Prepared.{IsGood};
ghost use Rattle.batch_add.specs.PreparedLists.{AreGood, IsBeside};
ghost use Rattle.batch_add.specs.Answers.{HasAborted};

use batch_add::{AbortOp, Prepared, PreparedList, abort, finalize};
use pass_table::{Pass, World, drive};
use std::sync::Wait;

/// What becomes of batches that are prepared.
#[derive(Clone, Copy)]
pub(crate) enum Spending {
    /// They are attached.
    Attach,
    /// They are given up.
    Abort,
    /// They are given up turn by turn.
    AbortByTurns,
}

/// Gives a batch up turn by turn.
fn abort_by_turns<R: Wait>(rt: &R, world: &World, pass: &mut Pass, batch: Prepared)
    requires idle { IsIdle world.now pass.old }
    requires good { IsGood batch (view_of pass.old) }
    ensures idle { IsIdle world.now pass.new }
    ensures aborted { HasAborted batch (view_of pass.old) (view_of pass.new) }
    ensures lists { (list : PreparedList) → AreGood list (view_of pass.old) → IsBeside batch list → AreGood list (view_of pass.new) }
{
    let mut aborting = AbortOp::new(world, pass, batch);
    drive(rt, world, pass, &mut aborting);
    aborting.leave();
}

impl Spending {
    /// Spends one batch.
    fn spend<R: Wait>(self, rt: &R, world: &World, pass: &mut Pass, batch: Prepared)
        requires idle { IsIdle world.now pass.old }
        requires good { IsGood batch (view_of pass.old) }
        ensures idle { IsIdle world.now pass.new }
        ensures lists { (list : PreparedList) → AreGood list (view_of pass.old) → IsBeside batch list → AreGood list (view_of pass.new) }
    {
        match self {
            Spending::Attach => finalize(world, pass, batch),
            Spending::Abort => abort(rt, world, pass, batch),
            Spending::AbortByTurns => abort_by_turns(rt, world, pass, batch),
        }
    }

    /// Spends the last batch of the list, where there is one.
    fn spend_last<R: Wait>(self, rt: &R, world: &World, pass: &mut Pass, list: &mut PreparedList)
        requires idle { IsIdle world.now pass.old }
        requires good { AreGood list.old (view_of pass.old) }
        ensures idle { IsIdle world.now pass.new }
        ensures good { AreGood list.new (view_of pass.new) }
    {
        if let Some(last) = list.len().checked_sub(1) {
            let batch = list.take(last);
            self.spend(rt, world, pass, batch);
        }
    }

    /// Spends all batches of the list, the last one first.
    pub(crate) fn spend_all<R: Wait>(
        self,
        rt: &R,
        world: &World,
        pass: &mut Pass,
        list: &mut PreparedList,
    )
        requires idle { IsIdle world.now pass.old }
        requires good { AreGood list.old (view_of pass.old) }
        ensures idle { IsIdle world.now pass.new }
    {
        for _ in 0..list.len() {
            self.spend_last(rt, world, pass, list);
        }
    }
}
