//! Carrying commands out.
ghost use Rattle.std.specs.Prelude.{IfOk};
ghost use Rattle.script_player.specs.Fitting.{FitsWorld};
ghost use Rattle.script_player.specs.Turn.{turn};
ghost use Rattle.world_host.specs.Shown.{table_of, IsSound, Does};

use crate::serial_world::SerialWorld;
use fixed_box::Shape;
use reply_text::Reply;
use script_player::{Change, outcome};
use script_text::Command;
use std::alloc::{AllocError, Global};
use std::sync::Wait;

impl SerialWorld {
    /// Carries a command out, and answers it. After an error the world is not used again.
    pub fn turn<R: Wait>(
        &mut self,
        rt: &R,
        alloc: Global,
        command: &Command,
    ) -> Result<Reply, AllocError>
        requires sound { IsSound self.old }
        requires fits { FitsWorld self.old.world.map command.now }
        ensures { IfOk result (Does (turn (table_of self.old) command.now) self.old self.new) }
    {
        match command {
            Command::Create {
                name,
                layer,
                bounds,
                user,
            } => self.create(rt, alloc, name, *layer, *bounds, *user),
            Command::Destroy { name } => Ok(outcome(self.change(rt, name, Change::Destroy))),
            Command::Add { names } => Ok(outcome(self.add(rt, alloc, names.items())?)),
            Command::Prepare {
                batch,
                layer,
                names,
            } => Ok(outcome(self.prepare(rt, alloc, batch, *layer, names.items())?)),
            Command::Finalize { batch } => Ok(outcome(self.finalize(batch)?)),
            Command::Abort { batch } => Ok(outcome(self.abort(rt, batch))),
            Command::Remove { name } => Ok(outcome(self.change(rt, name, Change::Remove))),
            Command::Move { name, bounds } => {
                Ok(outcome(self.change(rt, name, Change::Move(*bounds))))
            }
            Command::User { name, user } => {
                Ok(outcome(self.change(rt, name, Change::SetUser(*user))))
            }
            Command::Read { name } => Ok(self.read(rt, name)),
            Command::Multi { names } => self.multi(rt, alloc, names.items()),
            Command::QueryBox { mask, bounds } => {
                self.query(rt, alloc, *mask, &Shape::Box(*bounds))
            }
            Command::QueryPoint { mask, at } => self.query(rt, alloc, *mask, &Shape::Point(*at)),
            Command::QueryRay { mask, segment } => {
                self.query(rt, alloc, *mask, &Shape::Segment(*segment))
            }
        }
    }
}
