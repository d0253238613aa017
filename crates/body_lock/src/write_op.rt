//! Locking a body to write, by turns.
ghost use Rattle.std.specs.Prelude.{◌≡◌, ◌<◌, None, ⊤};
ghost use Rattle.core_state.specs.declared.view.Mode.TheVariants.{Write};
ghost use Rattle.pass_table.specs.Passes.{view_of, IsIdle};
ghost use Rattle.body_lock.specs.stages.Locking.{locking_of, IsLockingSo};

use crate::body_write::BodyWrite;
use crate::gone::Gone;
use crate::lock_op::LockOp;
use body_ident::BodyId;
use core_state::Mode;
use pass_table::{Label, Operation, Pass, Turn, World};
use scene_model::Made;

/// Locking a body to write, by turns: a load and an exchange of its stripe's word, again until it is taken, then a load of
/// its state word, and where it is gone the stripe is let go.
#[derive(Clone, Copy)]
pub struct LockWriteOp {
    pub(crate) locking: LockOp,
}

impl Operation for LockWriteOp {
    ghost use Rattle.body_lock.specs.stages.Locking.{lock_left, lock_takes, IsLockingSo};
    ghost use Rattle.body_lock.specs.Answers.{WriteAnswers};
    ghost use Rattle.body_lock.specs.stages.Locking.{locking_so-later};

    type Done = Result<BodyWrite, Gone>;

    ghost under_way = { λ first start operation view. IsLockingSo Write first.locking start operation.locking view };

    ghost answers = { λ first start last next answer. WriteAnswers first.locking.id start next answer };

    ghost left = { λ operation. lock_left operation.locking };

    ghost takes = { λ operation. lock_takes operation.locking };

    ghost reached = { λ operation. None };

    ghost last_label = { None };

    ghost refused = { λ answer. ⊥ };

    ghost says = { λ first start next label. ⊤ };

    ghost entry = { λ operation. None };

    fn turn(&mut self, world: &World, pass: &mut Pass) -> Turn<Result<BodyWrite, Gone>> {
        let id = self.locking.id;
        match self.locking.turn(world, pass) {
            Turn::Done(Ok(())) => Turn::Done(Ok(BodyWrite {
                number: pass.number(),
                id,
            })),
            Turn::Done(Err(gone)) => Turn::Done(Err(gone)),
            Turn::More => Turn::More,
            Turn::Again { lock, word } => Turn::Again { lock, word },
        }
    }

    fn label(&self) -> Option<Label> {
        None
    }

    fn made(&self) -> Option<&Made> {
        None
    }

    ghost may_look = { λ first start operation view next more under_way. locking_so-later Write first.locking start operation.locking view next more under_way };
}

impl LockWriteOp {
    /// Begins to lock a body to write; no step is made yet. The pass holds no lock.
    pub fn new(world: &World, pass: &mut Pass, id: BodyId) -> LockWriteOp
        requires idle { IsIdle world.now pass.old }
        requires below { id.index < world.now.map.bodies }
        ensures pass { pass.new ≡ pass.old }
        ensures begun { result.locking ≡ locking_of world.now.map id Write }
        ensures under_way { IsLockingSo Write result.locking (view_of pass.old) result.locking (view_of pass.new) }
    {
        LockWriteOp {
            locking: LockOp::new(world, pass, id, Mode::Write),
        }
    }
}
