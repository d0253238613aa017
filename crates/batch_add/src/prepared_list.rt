//! Several batches that are prepared, in a list.
ghost use Rattle.std.specs.Prelude.{◌≡◌, ◌+◌, ◌<◌, ◌++◌, [], ◌∷◌, length, slice_index_or, IfOk, OnOk, IfErr};
ghost use Rattle.std.specs.List.{remove};
ghost use Rattle.core_state.specs.declared.view.View.{View};
ghost use Rattle.batch_add.specs.Prepared.{IsGood};
ghost use Rattle.batch_add.specs.PreparedLists.{batches_of, AreGood, IsBeside};

use crate::prepared::Prepared;
use std::alloc::Global;

/// Batches that are prepared, as many as their owner likes. It takes them out one by one to spend them; where the list is let
/// go, each that is still there is left, as by `Prepared::leave`.
///
/// Where all that it holds are good for a pass and for slots apart (`AreGood`), they are so after each call here. Of the
/// other calls `prepare`, `finalize` and `abort` say so, each in its clause `lists`, and all others leave what the pass has.
#[derive(Drop)]
pub struct PreparedList {
    pub(crate) batches: Vec<KeptPrepared>,
}

/// A batch that is left where it is let go.
pub(crate) struct KeptPrepared {
    pub(crate) batch: Prepared,
}

impl Drop for KeptPrepared {
    fn drop(self) {
        let KeptPrepared { batch } = self;
        batch.leave();
    }
}

impl KeptPrepared {
    /// The batch, which is kept no more.
    fn into_batch(self) -> Prepared
        ensures { result ≡ self.batch }
    {
        let KeptPrepared { batch } = self;
        batch
    }
}

impl PreparedList {
    /// A list of none. It takes no memory.
    pub fn new(alloc: Global) -> PreparedList
        ensures none { batches_of result ≡ [] }
        ensures good { (view : View) → AreGood result view }
    {
        PreparedList {
            batches: Vec::new(alloc),
        }
    }

    /// How many there are.
    pub fn len(&self) -> usize
        ensures { result ≡ length (batches_of self.now) }
    {
        self.batches.len()
    }

    /// Puts a batch behind the others. Where there is not enough memory it is given back. The list stays good by one that is
    /// good and for another slot than each in the list, as `prepare` says of its batch.
    pub fn push(&mut self, batch: Prepared) -> Result<(), Prepared>
        ensures kept { IfOk result (λ done. batches_of self.new ≡ batches_of self.old ++ batch ∷ []) }
        ensures count { OnOk result (length (batches_of self.new) ≡ length (batches_of self.old) + 1) }
        ensures full { IfErr result (λ back. (back ≡ batch) × (batches_of self.new ≡ batches_of self.old)) }
        ensures good { IfOk result (λ done. (view : View) → AreGood self.old view → IsGood batch view → IsBeside batch self.old → AreGood self.new view) }
        ensures still { IfErr result (λ back. (view : View) → AreGood self.old view → AreGood self.new view) }
    {
        match self.batches.push(KeptPrepared { batch }) {
            Ok(()) => Ok(()),
            Err(refused) => Err(refused.value.into_batch()),
        }
    }

    /// Takes the batch at this place out. Where the list was good, the batch may be finalized or aborted, and then the rest of
    /// the list is good still.
    pub fn take(&mut self, place: usize) -> Prepared
        requires there { place < length (batches_of self.old) }
        ensures taken { result ≡ slice_index_or (batches_of self.old) place result }
        ensures others { batches_of self.new ≡ remove (batches_of self.old) place }
        ensures count { length (batches_of self.new) + 1 ≡ length (batches_of self.old) }
        ensures good { (view : View) → AreGood self.old view → IsGood result view }
        ensures left { (view : View) → AreGood self.old view → AreGood self.new view }
        ensures beside { (view : View) → AreGood self.old view → IsBeside result self.new }
    {
        self.batches.remove(place).into_batch()
    }
}
