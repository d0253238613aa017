//! Commands on the body of one name.
ghost use Rattle.std.specs.Prelude.{◌<◌, ◌≤◌, Option, IfOk};
ghost use Rattle.scene_model.specs.Scene.{next_index};
ghost use Rattle.script_player.specs.Body.{change_named};
ghost use Rattle.script_player.specs.Turn.{create_turn};
ghost use Rattle.world_host.specs.Counted.{destroys, removes};
ghost use Rattle.world_host.specs.Shown.{table_of, IsSound, IsCounted, Does, Attempts};

use crate::bodies_alone::{change_alone, create_alone};
use crate::serial_world::SerialWorld;
use fixed_box::FixBox;
use reply_text::{Refusal, Reply};
use script_player::{Change, Known};
use script_text::Text;
use std::alloc::{AllocError, Global};
use std::sync::Wait;

impl SerialWorld {
    /// `create NAME LAYER BOX USER`
    pub fn create<R: Wait>(
        &mut self,
        rt: &R,
        alloc: Global,
        name: &Text,
        layer: u32,
        bounds: FixBox,
        user: u32,
    ) -> Result<Reply, AllocError>
        requires sound { IsSound self.old }
        requires in_layers { layer < self.old.world.map.layers }
        ensures { IfOk result (Does (create_turn (table_of self.old) name.now layer bounds user (next_index (table_of self.old).scene)) self.old self.new) }
    {
        match create_alone(rt, &self.world, &mut self.pass, layer, bounds, user) {
            Some(id) => {
                self.live += 1;
                self.books
                    .keep_name(alloc, name, Some(Known { id, layer }))?;
                Ok(Reply::Id(id))
            }
            None => {
                self.books.keep_name(alloc, name, None)?;
                Ok(Reply::Refused(Refusal::Full))
            }
        }
    }

    /// Counts a change of a body that was made.
    fn count(&mut self, change: Change)
        requires live { destroys change ≤ self.old.live }
        requires inside { removes change ≤ self.old.inside }
        ensures { IsCounted change self.old self.new }
    {
        match change {
            Change::Destroy => self.live -= 1,
            Change::Remove => self.inside -= 1,
            Change::Move(_) | Change::SetUser(_) => {}
        }
    }

    /// Changes the body that a name stands for, and answers why it cannot.
    pub fn change<R: Wait>(&mut self, rt: &R, name: &Text, change: Change) -> Option<Refusal>
        requires sound { IsSound self.old }
        ensures { Attempts (change_named (table_of self.old) change name.now) self.old self.new result }
    {
        let Some(known) = self.books.known(name) else {
            return Some(Refusal::NoId);
        };
        match change_alone(rt, &self.world, &mut self.pass, known.id, change) {
            None => {
                self.count(change);
                None
            }
            Some(refusal) => Some(refusal),
        }
    }
}
