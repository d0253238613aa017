ghost use Rattle.std.specs.Option.{ForSome};
ghost use Rattle.script_text.specs.World.{IsForOne};

use crate::command::Command;
use crate::names::Names;
use word_map::Config;

/// The lines of a script that were read so far.
#[derive(Debug, Drop)]
pub struct Draft {
    /// What the world line states; nothing else stands above it.
    pub world: Option<Config>,
    pub names: Names,
    pub lines: Vec<Command>,
    pub ghost for_one: { ForSome world IsForOne },
}
