ghost use Rattle.script_text.specs.Sound.{IsSound};

use crate::code::Code;
use crate::command::Command;
use std::alloc::{AllocError, AllocFailed};
use std::marker::Model;
use thiserror::Error;
use word_map::Config;

/// The command lines of a script, in order.
#[derive(Debug, Drop)]
pub struct CommandList {
    commands: Vec<Command>,
}

impl Model for CommandList {
    ghost use Rattle.std.specs.Prelude.{List};
    ghost use Rattle.script_text.specs.declared.command.Command.{Command};

    ghost Value = { List Command };

    ghost view = { λ c. c.commands.items };
}

impl CommandList {
    ghost use Rattle.std.specs.Prelude.{◌≡◌};

    /// The list of these commands. It takes no memory.
    pub fn new(items: Vec<Command>) -> Self
        ensures { result ≡ items.items }
    {
        CommandList { commands: items }
    }

    /// The commands, in order.
    pub fn items(&self) -> &[Command]
        ensures { result.now ≡ self.now }
    {
        self.commands.as_slice()
    }
}

/// What a text asks the player to do. Its own text, a line for each command, is a script with these commands.
#[derive(Debug, Drop)]
pub struct Script {
    /// The sizes of the world. `passes` is 1 + `actors` + `most_workers`.
    pub world: Config,
    /// One command for each command line below `world`.
    pub lines: CommandList,
    /// How many actors there are: none, until they are built.
    pub actors: u32,
    /// The most workers of a block or a step: none, until these are built.
    pub most_workers: u32,
    pub ghost sound: { IsSound world lines actors most_workers },
}

/// Why bytes gave no script.
#[derive(Clone, Copy, Debug, PartialEq, Eq, Error)]
pub enum ScriptFault {
    /// The bytes are no script: the first line that is none of one, and what is wrong with it.
    #[error("line {line} is none of a script: {code:?}")]
    At { line: u32, code: Code },
    /// There was not enough memory.
    #[error("want of memory")]
    Memory,
}
