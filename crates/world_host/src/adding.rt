//! Adding bodies.
ghost use Rattle.std.specs.Prelude.{◌≡◌, ◌<◌, ◌≤◌, length, All, IfOk};
ghost use Rattle.std.specs.List.{range_with_len};
ghost use Rattle.script_player.specs.Batches.{add_layer, add_layers, add_named};
ghost use Rattle.world_host.specs.Shown.{table_of, IsSound, Attempts};

use crate::batches_alone::add_alone;
use crate::serial_world::SerialWorld;
use reply_text::Refusal;
use script_player::{Known, in_layer};
use script_text::Text;
use std::alloc::{AllocError, Global};
use std::sync::Wait;
use tree_plan::need;

impl SerialWorld {
    /// Adds bodies that were created in a layer, by a batch of their own.
    fn add_layer<R: Wait>(
        &mut self,
        rt: &R,
        alloc: Global,
        layer: u32,
        bodies: &[Known],
    ) -> Result<Option<Refusal>, AllocError>
        requires sound { IsSound self.old }
        requires in_layers { layer < self.old.world.map.layers }
        requires below { All (λ known. known.id.index < self.old.world.map.bodies) bodies.now }
        requires few { length bodies.now ≤ self.old.world.map.bodies }
        ensures { IfOk result (Attempts (add_layer (table_of self.old) layer bodies.now) self.old self.new) }
    {
        if bodies.is_empty() {
            return Ok(None);
        }
        let count = bodies.len() as u32;
        if let Some(refusal) = add_alone(
            rt,
            alloc,
            &self.world,
            &mut self.pass,
            &mut self.batches,
            layer,
            bodies,
        )? {
            return Ok(Some(refusal));
        }
        self.books.attach(layer, need(count))?;
        self.inside += count;
        Ok(None)
    }

    /// Adds bodies layer by layer, and stops at the first layer that is refused.
    fn add_layers<R: Wait>(
        &mut self,
        rt: &R,
        alloc: Global,
        bodies: &[Known],
    ) -> Result<Option<Refusal>, AllocError>
        requires sound { IsSound self.old }
        requires below { All (λ known. known.id.index < self.old.world.map.bodies) bodies.now }
        requires few { length bodies.now ≤ self.old.world.map.bodies }
        ensures { IfOk result (Attempts (add_layers (table_of self.old) bodies.now (range_with_len 0 self.old.world.map.layers)) self.old self.new) }
    {
        let layers = self.world.config().layers;
        for layer in 0..layers {
            let part = in_layer(alloc, bodies, layer)?;
            if let Some(refusal) = self.add_layer(rt, alloc, layer, &part)? {
                return Ok(Some(refusal));
            }
        }
        Ok(None)
    }

    /// `add NAME..`
    ///
    /// It stops at the first layer that is refused; what was added of lower layers stays.
    pub fn add<R: Wait>(
        &mut self,
        rt: &R,
        alloc: Global,
        names: &[Text],
    ) -> Result<Option<Refusal>, AllocError>
        requires sound { IsSound self.old }
        requires few { length names.now ≤ self.old.world.map.bodies }
        ensures { IfOk result (Attempts (add_named (table_of self.old) names.now) self.old self.new) }
    {
        let Some(bodies) = self.books.known_all(alloc, names)? else {
            return Ok(Some(Refusal::NoId));
        };
        self.add_layers(rt, alloc, &bodies)
    }
}
