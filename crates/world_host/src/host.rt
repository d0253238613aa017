//! The host of a script on a shared world.
ghost use Rattle.std.specs.Prelude.{◌≡◌, IfOk, IfErr};
ghost use Rattle.pass_table.specs.Opened.{IsFaultOf};
ghost use Rattle.script_player.specs.Table.{Table, empty_table};
ghost use Rattle.world_host.specs.Shown.{Shows};

use crate::serial_world::SerialWorld;
use pass_table::OpenFault;
use reply_text::Reply;
use script_player::Host;
use script_text::Command;
use std::alloc::{AllocError, Global};
use std::sync::Wait;
use word_map::Config;

/// A shared world on which a script is played, with what its calls ask for: where they wait, and where they take memory.
#[derive(Drop)]
pub struct WorldHost<'a, R: Wait> {
    pub(crate) rt: &'a R,
    pub(crate) alloc: Global,
    pub(crate) serial: SerialWorld,
}

impl<'a, R: Wait> WorldHost<'a, R> {
    /// Opens a world for a script, with one pass. Nothing is done with it yet.
    pub fn open(rt: &'a R, alloc: Global, config: Config) -> Result<WorldHost<'a, R>, OpenFault>
        requires one { config.passes ≡ 1 }
        ensures opened { IfOk result (λ host. Shows host.serial (empty_table config)) }
        ensures fault { IfErr result (IsFaultOf config) }
    {
        let serial = SerialWorld::open(alloc, config)?;
        Ok(WorldHost { rt, alloc, serial })
    }
}

impl<'a, R: Wait> Host for WorldHost<'a, R> {
    ghost shows = { λ host table. Shows host.serial table };

    fn command(&mut self, command: &Command) -> Result<Reply, AllocError> {
        self.serial.turn(self.rt, self.alloc, command)
    }

    fn counts(&self) -> (u32, u32) {
        (self.serial.live, self.serial.inside)
    }
}
