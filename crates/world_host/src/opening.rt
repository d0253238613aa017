//! Opening a world for a script.
ghost use Rattle.std.specs.Prelude.{◌≡◌, IfOk, IfErr};
ghost use Rattle.pass_table.specs.Opened.{IsFaultOf};
ghost use Rattle.script_player.specs.Table.{empty_table};
ghost use Rattle.world_host.specs.Shown.{Shows};

use crate::serial_world::SerialWorld;
use batch_add::PreparedList;
use pass_table::{OpenFault, open_world};
use script_player::Books;
use std::alloc::Global;
use tree_query::Finder;
use word_map::Config;

impl SerialWorld {
    /// Opens a world with one pass, with which nothing is done yet.
    pub fn open(alloc: Global, config: Config) -> Result<SerialWorld, OpenFault>
        requires one { config.passes ≡ 1 }
        ensures opened { IfOk result (λ w. Shows w (empty_table config)) }
        ensures fault { IfErr result (IsFaultOf config) }
    {
        let (world, mut passes) = open_world(alloc, config)?;
        let Some(pass) = passes.next() else {
            return Err(OpenFault::Memory);
        };
        let Ok(finder) = Finder::new(alloc, config.bodies) else {
            return Err(OpenFault::Memory);
        };
        Ok(SerialWorld {
            world,
            pass,
            finder,
            books: Books::new(alloc),
            batches: PreparedList::new(alloc),
            live: 0,
            inside: 0,
        })
    }
}
