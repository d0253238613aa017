//! Commands on batches.
ghost use Rattle.std.specs.Prelude.{◌≡◌, Option, List, IfOk};
ghost use Rattle.script_player.specs.Batches.{prepare_named, prepare_bodies, finalize_named, abort_named, in_layer, add_layer, add_layers, add_named};
ghost use Rattle.std.specs.List.{range_with_len};
ghost use Rattle.script_player.specs.UnderWay.{IsUnderWay};
ghost use Rattle.script_player.specs.Shown.{Tries};

use crate::books::{Batch, Known};
use crate::plain_player::PlainPlayer;
use crate::taking::unmark;
use reply_text::Refusal;
use scene_model::Entry;
use script_text::Text;
use std::alloc::{AllocError, Global};

/// Those of the bodies that were created in a layer.
pub fn in_layer(alloc: Global, bodies: &[Known], layer: u32) -> Result<Vec<Known>, AllocError>
    ensures { IfOk result (λ part. part.items ≡ in_layer layer bodies.now) }
{
    bodies
        .iter()
        .filter(|known| known.layer == layer)
        .copied()
        .collect(alloc)
}

// Each of these answers why it is refused; then nothing is changed but for `add`, of which the lower layers stay.
impl PlainPlayer {
    /// `prepare B LAYER NAME..`
    pub fn prepare(
        &mut self,
        alloc: Global,
        batch: &Text,
        layer: u32,
        names: &[Text],
    ) -> Result<Option<Refusal>, AllocError>
        requires { IsUnderWay self.old }
        ensures { IfOk result (Tries (prepare_named self.old batch.now layer names.now) self.old self.new) }
    {
        let Some(bodies) = self.books.known_all(alloc, names)? else {
            return Ok(Some(Refusal::NoId));
        };
        self.prepare_bodies(alloc, batch, layer, &bodies)
    }

    /// Prepares a batch of these bodies, where no prepared batch has its name.
    fn prepare_bodies(
        &mut self,
        alloc: Global,
        batch: &Text,
        layer: u32,
        bodies: &[Known],
    ) -> Result<Option<Refusal>, AllocError>
        requires { IsUnderWay self.old }
        ensures { IfOk result (Tries (prepare_bodies self.old batch.now layer bodies.now) self.old self.new) }
    {
        if self.books.has_batch(batch) {
            return Ok(Some(Refusal::Batch));
        }
        match self.take(alloc, layer, bodies)? {
            Ok(taken) => {
                self.books.keep_batch(Batch {
                    name: Text::from_slice(alloc, batch.items())?,
                    layer,
                    indexes: taken.indexes,
                    nodes: taken.nodes,
                })?;
                Ok(None)
            }
            Err(refusal) => Ok(Some(refusal)),
        }
    }

    /// `finalize B`
    pub fn finalize(&mut self, name: &Text) -> Result<Option<Refusal>, AllocError>
        requires { IsUnderWay self.old }
        ensures { IfOk result (Tries (finalize_named self.old name.now) self.old self.new) }
    {
        let Some(batch) = self.books.spend(name) else {
            return Ok(Some(Refusal::NoBatch));
        };
        self.books.attach(batch.layer, batch.nodes)?;
        self.scene.apply(&Entry::Join {
            layer: batch.layer,
            indexes: batch.indexes,
        })?;
        Ok(None)
    }

    /// `abort B`
    pub fn abort(&mut self, name: &Text) -> Result<Option<Refusal>, AllocError>
        requires { IsUnderWay self.old }
        ensures { IfOk result (Tries (abort_named self.old name.now) self.old self.new) }
    {
        let Some(batch) = self.books.spend(name) else {
            return Ok(Some(Refusal::NoBatch));
        };
        unmark(&mut self.scene, batch.indexes.items())?;
        Ok(None)
    }

    /// Adds bodies that were created in a layer, by a batch of their own.
    fn add_layer(
        &mut self,
        alloc: Global,
        layer: u32,
        bodies: &[Known],
    ) -> Result<Option<Refusal>, AllocError>
        requires { IsUnderWay self.old }
        ensures { IfOk result (Tries (add_layer self.old layer bodies.now) self.old self.new) }
    {
        if bodies.is_empty() {
            return Ok(None);
        }
        match self.take(alloc, layer, bodies)? {
            Ok(taken) => {
                self.books.attach(layer, taken.nodes)?;
                self.scene.apply(&Entry::Join {
                    layer,
                    indexes: taken.indexes,
                })?;
                Ok(None)
            }
            Err(cause) => Ok(Some(cause)),
        }
    }

    /// Adds bodies layer by layer, and stops at the first layer that is refused.
    #[tactic(auto, using(crate::proofs::Layers::added_none, crate::proofs::Layers::still_under_way, crate::proofs::Layers::added_more, crate::proofs::Layers::added_stop, crate::proofs::Layers::added_all))]
    fn add_layers(&mut self, alloc: Global, bodies: &[Known]) -> Result<Option<Refusal>, AllocError>
        requires { IsUnderWay self.old }
        ensures { IfOk result (Tries (add_layers self.old bodies.now (range_with_len 0 self.old.world.layers)) self.old self.new) }
    {
        let layers = self.world.layers;
        for layer in 0..layers {
            let part = in_layer(alloc, bodies, layer)?;
            if let Some(refusal) = self.add_layer(alloc, layer, &part)? {
                return Ok(Some(refusal));
            }
        }
        Ok(None)
    }

    /// `add NAME..`
    pub fn add(&mut self, alloc: Global, names: &[Text]) -> Result<Option<Refusal>, AllocError>
        requires { IsUnderWay self.old }
        ensures { IfOk result (Tries (add_named self.old names.now) self.old self.new) }
    {
        let Some(bodies) = self.books.known_all(alloc, names)? else {
            return Ok(Some(Refusal::NoId));
        };
        self.add_layers(alloc, &bodies)
    }
}
