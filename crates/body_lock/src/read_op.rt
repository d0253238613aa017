//! Locking a body to read, by turns.
ghost use Rattle.std.specs.Prelude.{◌≡◌, ◌<◌, None, ⊤};
ghost use Rattle.core_state.specs.declared.view.Mode.TheVariants.{Read};
ghost use Rattle.pass_table.specs.Passes.{view_of, IsIdle};
ghost use Rattle.body_lock.specs.stages.Locking.{locking_of, IsLockingSo};

use crate::body_read::BodyRead;
use crate::gone::Gone;
use crate::lock_op::LockOp;
use body_ident::BodyId;
use core_state::Mode;
use pass_table::{Label, Operation, Pass, Turn, World};
use scene_model::Made;

/// Locking a body to read, by turns: a load and an exchange of its stripe's word, again until it is taken, then a load of
/// its state word, and where it is gone the stripe is let go.
#[derive(Clone, Copy)]
pub struct LockReadOp {
    pub(crate) locking: LockOp,
}

impl Operation for LockReadOp {
    ghost use Rattle.body_lock.specs.stages.Locking.{lock_left, lock_takes, IsLockingSo};
    ghost use Rattle.body_lock.specs.Answers.{ReadAnswers};
    ghost use Rattle.body_lock.specs.stages.Locking.{locking_so-later};

    type Done = Result<BodyRead, Gone>;

    ghost under_way = { λ first start operation view. IsLockingSo Read first.locking start operation.locking view };

    ghost answers = { λ first start last next answer. ReadAnswers first.locking.id start next answer };

    ghost left = { λ operation. lock_left operation.locking };

    ghost takes = { λ operation. lock_takes operation.locking };

    ghost reached = { λ operation. None };

    ghost last_label = { None };

    ghost refused = { λ answer. ⊥ };

    ghost says = { λ first start next label. ⊤ };

    ghost entry = { λ operation. None };

    fn turn(&mut self, world: &World, pass: &mut Pass) -> Turn<Result<BodyRead, Gone>> {
        let id = self.locking.id;
        match self.locking.turn(world, pass) {
            Turn::Done(Ok(())) => Turn::Done(Ok(BodyRead {
                number: pass.number(),
                id,
            })),
            Turn::Done(Err(gone)) => Turn::Done(Err(gone)),
            Turn::More => Turn::More,
            Turn::Again { lock, word } => Turn::Again { lock, word },
        }
    }

    fn label(&self) -> Option<Label> {
        None
    }

    fn made(&self) -> Option<&Made> {
        None
    }

    ghost may_look = { λ first start operation view next more under_way. locking_so-later Read first.locking start operation.locking view next more under_way };
}

impl LockReadOp {
    /// Begins to lock a body to read; no step is made yet. The pass holds no lock.
    pub fn new(world: &World, pass: &mut Pass, id: BodyId) -> LockReadOp
        requires idle { IsIdle world.now pass.old }
        requires below { id.index < world.now.map.bodies }
        ensures pass { pass.new ≡ pass.old }
        ensures begun { result.locking ≡ locking_of world.now.map id Read }
        ensures under_way { IsLockingSo Read result.locking (view_of pass.old) result.locking (view_of pass.new) }
    {
        LockReadOp {
            locking: LockOp::new(world, pass, id, Mode::Read),
        }
    }
}
