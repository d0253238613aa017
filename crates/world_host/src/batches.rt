//! Commands on batches.
ghost use Rattle.std.specs.Prelude.{◌≡◌, ◌<◌, ◌≤◌, length, map, IfOk};
ghost use Rattle.scene_model.specs.Need.{need};
ghost use Rattle.tree_plan.specs.declared.node_count.TheConstants.{MAX_TREE_BODIES};
ghost use Rattle.script_player.specs.Batches.{prepare_named, finalize_named, abort_named};
ghost use Rattle.world_host.specs.Shown.{table_of, IsSound, Attempts};

use crate::batches_alone::{abort_alone, finalize_alone, prepare_alone};
use crate::serial_world::SerialWorld;
use reply_text::Refusal;
use scene_model::IndexList;
use script_player::{Batch, Known};
use script_text::Text;
use std::alloc::{AllocError, Global};
use std::sync::Wait;
use tree_plan::need;

/// The indexes of bodies.
fn indexes_of(alloc: Global, bodies: &[Known]) -> Result<Vec<u32>, AllocError>
    ensures { IfOk result (λ indexes. indexes.items ≡ map (λ known. known.id.index) bodies.now) }
{
    bodies.iter().map(|known| known.id.index()).collect(alloc)
}

/// What the books keep of a batch that is prepared.
fn batch_of(alloc: Global, name: &Text, layer: u32, bodies: &[Known]) -> Result<Batch, AllocError>
    requires few { length bodies.now ≤ MAX_TREE_BODIES }
    ensures name { IfOk result (λ batch. batch.name ≡ name.now) }
    ensures layer { IfOk result (λ batch. batch.layer ≡ layer) }
    ensures indexes { IfOk result (λ batch. batch.indexes ≡ map (λ known. known.id.index) bodies.now) }
    ensures nodes { IfOk result (λ batch. batch.nodes ≡ need (length bodies.now)) }
{
    Ok(Batch {
        name: Text::from_slice(alloc, name.items())?,
        layer,
        indexes: IndexList::new(indexes_of(alloc, bodies)?),
        nodes: need(bodies.len() as u32),
    })
}

impl SerialWorld {
    /// `prepare B LAYER NAME..`
    pub fn prepare<R: Wait>(
        &mut self,
        rt: &R,
        alloc: Global,
        batch: &Text,
        layer: u32,
        names: &[Text],
    ) -> Result<Option<Refusal>, AllocError>
        requires sound { IsSound self.old }
        requires in_layers { layer < self.old.world.map.layers }
        requires few { length names.now ≤ self.old.world.map.bodies }
        ensures { IfOk result (Attempts (prepare_named (table_of self.old) batch.now layer names.now) self.old self.new) }
    {
        let Some(bodies) = self.books.known_all(alloc, names)? else {
            return Ok(Some(Refusal::NoId));
        };
        if self.books.has_batch(batch) {
            return Ok(Some(Refusal::Batch));
        }
        let kept = batch_of(alloc, batch, layer, &bodies)?;
        match prepare_alone(
            rt,
            alloc,
            &self.world,
            &mut self.pass,
            &mut self.batches,
            layer,
            &bodies,
        )? {
            None => {
                self.books.keep_batch(kept)?;
                Ok(None)
            }
            Some(refusal) => Ok(Some(refusal)),
        }
    }

    /// `finalize B`
    pub fn finalize(&mut self, name: &Text) -> Result<Option<Refusal>, AllocError>
        requires sound { IsSound self.old }
        ensures { IfOk result (Attempts (finalize_named (table_of self.old) name.now) self.old self.new) }
    {
        let Some(place) = self.books.batch_place(name) else {
            return Ok(Some(Refusal::NoBatch));
        };
        let Some(batch) = self.books.spend(name) else {
            unreachable!()
        };
        self.books.attach(batch.layer, batch.nodes)?;
        finalize_alone(&self.world, &mut self.pass, &mut self.batches, place);
        self.inside += batch.indexes.items().len() as u32;
        Ok(None)
    }

    /// `abort B`
    pub fn abort<R: Wait>(&mut self, rt: &R, name: &Text) -> Option<Refusal>
        requires sound { IsSound self.old }
        ensures { Attempts (abort_named (table_of self.old) name.now) self.old self.new result }
    {
        let Some(place) = self.books.batch_place(name) else {
            return Some(Refusal::NoBatch);
        };
        let Some(_) = self.books.spend(name) else {
            unreachable!()
        };
        abort_alone(rt, &self.world, &mut self.pass, &mut self.batches, place);
        None
    }
}
