//! The calls on batches, made by the list that keeps them.
ghost use Rattle.std.specs.Prelude.{◌≡◌, ℕ, ◌+◌, ◌<◌, ◌≤◌, ◌++◌, [], ◌∷◌, length, slice_index_or, All, Err, OnOk, IfErr};
ghost use Rattle.std.specs.List.{remove};
ghost use Rattle.std.specs.Vec.{vec_len, vec_capacity};
ghost use Rattle.body_ident.specs.Id.{Id};
ghost use Rattle.core_state.specs.declared.view.Mode.{Mode};
ghost use Rattle.pass_table.specs.Passes.{view_of, IsOf, IsIdle};
ghost use Rattle.pass_table.specs.Bodies.{IsAlone};
ghost use Rattle.body_lock.specs.declared.multi_guard.MultiGuard.{MultiGuard};
ghost use Rattle.body_lock.specs.Guarding.{IsReading};
ghost use Rattle.body_lock.specs.Multi.{IsMultiGood};
ghost use Rattle.batch_add.specs.declared.prepared.Prepared.{Prepared};
ghost use Rattle.batch_add.specs.Prepared.{IsGood, HasAttached};
ghost use Rattle.batch_add.specs.PreparedLists.{batches_of, AreGood, IsBeside};
ghost use Rattle.batch_add.specs.Answers.{PrepareAnswers, HasPrepared, HasAborted};

use crate::answers::PrepareRefused;
use crate::calls::{abort, prepare};
use crate::finalizing::finalize;
use crate::prepared::Prepared;
use crate::prepared_list::{KeptPrepared, PreparedList};
use body_ident::BodyId;
use body_lock::BodyRead;
use pass_table::{Pass, World};
use std::alloc::Global;
use std::sync::Wait;

impl PreparedList {
    /// Prepares a batch, as `prepare` does, and puts it behind the others.
    ///
    /// Room in the list is taken before its first step; where there is none it is refused for want of memory. Where it is
    /// refused the list is as it was.
    pub fn prepare<R: Wait>(
        &mut self,
        rt: &R,
        alloc: Global,
        world: &World,
        pass: &mut Pass,
        layer: u32,
        ids: &[BodyId],
    ) -> Result<(), PrepareRefused>
        requires idle { IsIdle world.now pass.old }
        requires in_layers { layer < world.now.map.layers }
        requires below { All (λ id. id.index < world.now.map.bodies) ids.now }
        requires few { length ids.now ≤ world.now.map.bodies }
        requires good { AreGood self.old (view_of pass.old) }
        ensures idle { IsIdle world.now pass.new }
        ensures good { AreGood self.new (view_of pass.new) }
        ensures count { OnOk result (length (batches_of self.new) ≡ length (batches_of self.old) + 1) }
        ensures prepared { OnOk result ((batch : Prepared) × (batches_of self.new ≡ batches_of self.old ++ batch ∷ []) × HasPrepared layer ids.now (view_of pass.old) (view_of pass.new) batch) }
        ensures refused { IfErr result (λ refused. (batches_of self.new ≡ batches_of self.old) × PrepareAnswers layer ids.now (view_of pass.old) (view_of pass.new) (Err refused)) }
    {
        if self.batches.reserve(1).is_err() {
            return Err(PrepareRefused::Memory);
        }
        let batch = prepare(rt, alloc, world, pass, layer, ids)?;
        self.put(batch);
        Ok(())
    }

    /// Attaches the batch at this place, as `finalize` does. The list is one shorter.
    pub fn finalize(&mut self, world: &World, pass: &mut Pass, place: usize)
        requires of { IsOf world.now pass.old }
        requires good { AreGood self.old (view_of pass.old) }
        requires there { place < length (batches_of self.old) }
        ensures of { IsOf world.now pass.new }
        ensures idle { IsIdle world.now pass.old → IsIdle world.now pass.new }
        ensures good { AreGood self.new (view_of pass.new) }
        ensures count { length (batches_of self.new) + 1 ≡ length (batches_of self.old) }
        ensures others { batches_of self.new ≡ remove (batches_of self.old) place }
        ensures attached { (batch : Prepared) × (batch ≡ slice_index_or (batches_of self.old) place batch) × HasAttached batch (view_of pass.old) (view_of pass.new) }
        ensures alone { (number : ℕ) (id : Id) (mode : Mode) → IsAlone number id mode (view_of pass.old) → IsAlone number id mode (view_of pass.new) }
        ensures multi { (guard : MultiGuard) → IsMultiGood guard (view_of pass.old) → IsMultiGood guard (view_of pass.new) }
    {
        let batch = self.take(place);
        finalize(world, pass, batch);
    }

    /// The same under the lock of a body, which stays good.
    pub fn finalize_under(&mut self, world: &World, pass: &mut Pass, guard: &BodyRead, place: usize)
        requires of { IsOf world.now pass.old }
        requires guarded { IsReading guard.now (view_of pass.old) }
        requires good { AreGood self.old (view_of pass.old) }
        requires there { place < length (batches_of self.old) }
        ensures of { IsOf world.now pass.new }
        ensures guarded { IsReading guard.now (view_of pass.new) }
        ensures good { AreGood self.new (view_of pass.new) }
        ensures count { length (batches_of self.new) + 1 ≡ length (batches_of self.old) }
        ensures others { batches_of self.new ≡ remove (batches_of self.old) place }
        ensures attached { (batch : Prepared) × (batch ≡ slice_index_or (batches_of self.old) place batch) × HasAttached batch (view_of pass.old) (view_of pass.new) }
    {
        self.finalize(world, pass, place);
    }

    /// Gives the batch at this place up, as `abort` does. The list is one shorter.
    pub fn abort<R: Wait>(&mut self, rt: &R, world: &World, pass: &mut Pass, place: usize)
        requires idle { IsIdle world.now pass.old }
        requires good { AreGood self.old (view_of pass.old) }
        requires there { place < length (batches_of self.old) }
        ensures idle { IsIdle world.now pass.new }
        ensures good { AreGood self.new (view_of pass.new) }
        ensures count { length (batches_of self.new) + 1 ≡ length (batches_of self.old) }
        ensures others { batches_of self.new ≡ remove (batches_of self.old) place }
        ensures aborted { (batch : Prepared) × (batch ≡ slice_index_or (batches_of self.old) place batch) × HasAborted batch (view_of pass.old) (view_of pass.new) }
    {
        let batch = self.take(place);
        abort(rt, world, pass, batch);
    }

    /// Puts a batch behind the others where there is room.
    fn put(&mut self, batch: Prepared)
        requires { vec_len self.old.batches + 1 ≤ vec_capacity self.old.batches }
        ensures kept { batches_of self.new ≡ batches_of self.old ++ batch ∷ [] }
    {
        match self.batches.push(KeptPrepared { batch }) {
            Ok(()) => {}
            Err(_) => unreachable!(),
        }
    }
}
