//! The plain side of a game, with what it draws and what it counts.
ghost use Rattle.std.specs.Prelude.{◌≡◌};
ghost use Rattle.tree_query.specs.Finding.{room_of};

use crate::draws::Draws;
use crate::plain::{BODIES, Plain};
use crate::tally::Tally;
use std::alloc::Global;
use tree_query::Finder;

/// All of a game but the shared world.
#[derive(Drop)]
pub(crate) struct Game {
    pub(crate) plain: Plain,
    pub(crate) draws: Draws,
    pub(crate) tally: Tally,
    /// What finds bodies.
    pub(crate) finder: Finder,
    ghost room: { room_of finder ≡ 64 },
}

impl Game {
    /// A game in which no call was made.
    pub(crate) fn new(alloc: Global) -> Option<Game> {
        let finder = Finder::new(alloc, BODIES).ok()?;
        Some(Game {
            plain: Plain::new(alloc).ok()?,
            draws: Draws::new()?,
            tally: Tally::NOTHING,
            finder,
        })
    }
}
