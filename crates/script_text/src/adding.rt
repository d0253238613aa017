ghost use Rattle.std.specs.Prelude.{◌≡◌, ◌∷◌, [], Some, None, OnOk, true};
ghost use Rattle.script_text.specs.Fault.{ReadsInMemory};
ghost use Rattle.script_text.specs.Lines.{texts};
ghost use Rattle.script_text.specs.Keyword.{keyword_text};
ghost use Rattle.script_text.specs.Command.{world_words};
ghost use Rattle.script_text.specs.Fitting.{HasWords, all_fit};
ghost use Rattle.script_text.specs.World.{SpellsWorld};
ghost use Rattle.script_text.specs.Grammar.{fields_fault, first_fault, named_fault, command_fault};
ghost use Rattle.script_text.specs.Above.{opening};
ghost use Rattle.script_text.specs.Draft.{Adds, IsNewIn, Keeps, above_below, above_next, words_so_far};

use crate::code::{Code, LineError};
use crate::command::Command;
use crate::commands::{
    read_batch, read_bodies, read_body, read_box, read_create, read_move, read_point, read_prepare,
    read_ray, read_set_user, read_world,
};
use crate::draft::Draft;
use crate::keyword::{Keyword, unknown_word};
use crate::limits::MAX_MULTI;
use crate::names::Names;
use std::alloc::{AllocError, Global};
use word_map::Config;

/// The command that a keyword and the words below it spell, below a world line.
fn read_fields(
    alloc: Global,
    world: &Config,
    names: &Names,
    keyword: Keyword,
    args: &[&[u8]],
) -> Result<Command, LineError>
    ensures { ReadsInMemory result (fields_fault (above_below world.now names.now) keyword (texts args.now))
        (HasWords (keyword_text keyword ∷ texts args.now)) }
{
    match keyword {
        Keyword::World => Err(LineError::Fault(Code::World)),
        Keyword::Create => read_create(alloc, names, world.layers, args),
        Keyword::Destroy => Ok(Command::Destroy {
            name: read_body(alloc, names, args)?,
        }),
        Keyword::Add => Ok(Command::Add {
            names: read_bodies(alloc, names, world.bodies, args)?,
        }),
        Keyword::Prepare => read_prepare(alloc, names, world.bodies, world.layers, args),
        Keyword::Finalize => Ok(Command::Finalize {
            batch: read_batch(alloc, args)?,
        }),
        Keyword::Abort => Ok(Command::Abort {
            batch: read_batch(alloc, args)?,
        }),
        Keyword::Remove => Ok(Command::Remove {
            name: read_body(alloc, names, args)?,
        }),
        Keyword::Move => read_move(alloc, names, args),
        Keyword::User => read_set_user(alloc, names, args),
        Keyword::Read => Ok(Command::Read {
            name: read_body(alloc, names, args)?,
        }),
        Keyword::Multi => Ok(Command::Multi {
            names: read_bodies(alloc, names, MAX_MULTI, args)?,
        }),
        Keyword::QueryBox => read_box(args),
        Keyword::QueryPoint => read_point(args),
        Keyword::QueryRay => read_ray(args),
    }
}

/// The sizes that the first command of a script states.
fn read_first(keyword: Keyword, args: &[&[u8]]) -> Result<Config, LineError>
    ensures { ReadsInMemory result (first_fault keyword (texts args.now)) (λ world. (keyword ≡ Keyword.World) × SpellsWorld (texts args.now) world) }
{
    match keyword {
        Keyword::World => read_world(args),
        _ => Err(LineError::Fault(Code::World)),
    }
}

impl Draft {
    /// A draft of no lines.
    pub fn new(alloc: Global) -> Draft
        ensures words { words_so_far result ≡ [] }
        ensures above { above_next result ≡ opening }
        ensures fit { all_fit result.lines.items ≡ true }
    {
        Draft {
            world: None,
            names: Names::new(alloc),
            lines: Vec::new(alloc),
        }
    }

    /// Adds the world line.
    fn begin(&mut self, alloc: Global, keyword: Keyword, args: &[&[u8]]) -> Result<(), LineError>
        requires { self.old.world ≡ None }
        ensures { ReadsInMemory result (first_fault keyword (texts args.now)) (λ _. Adds (keyword_text keyword ∷ texts args.now) self.old self.new) }
    {
        self.world = Some(read_first(keyword, args)?);
        self.names = Names::new(alloc);
        self.lines = Vec::new(alloc);
        Ok(())
    }

    /// Keeps a command, and the name that it gives.
    fn keep(&mut self, alloc: Global, command: Command) -> Result<(), AllocError>
        requires { IsNewIn self.old.names command }
        ensures { OnOk result (Keeps command self.old self.new) }
    {
        if let Command::Create { name, .. } = &command {
            self.names.push_new(alloc, name.items())?;
        }
        self.lines.push(command)?;
        Ok(())
    }

    /// Adds a line below the world line.
    #[tactic(auto, using(crate::proofs::NewNames::gives_new_name, crate::proofs::Drafts::adds_kept))]
    fn continue_with(
        &mut self,
        alloc: Global,
        world: Config,
        keyword: Keyword,
        args: &[&[u8]],
    ) -> Result<(), LineError>
        requires { self.old.world ≡ Some world }
        ensures { ReadsInMemory result (fields_fault (above_next self.old) keyword (texts args.now)) (λ _. Adds (keyword_text keyword ∷ texts args.now) self.old self.new) }
    {
        let command = read_fields(alloc, &world, &self.names, keyword, args)?;
        self.keep(alloc, command)?;
        Ok(())
    }

    /// Adds the command of a line.
    fn add_command(
        &mut self,
        alloc: Global,
        keyword: Keyword,
        args: &[&[u8]],
    ) -> Result<(), LineError>
        ensures { ReadsInMemory result (named_fault (above_next self.old) [] (Some keyword) (texts args.now)) (λ _. Adds (keyword_text keyword ∷ texts args.now) self.old self.new) }
    {
        match self.world {
            None => self.begin(alloc, keyword, args),
            Some(world) => self.continue_with(alloc, world, keyword, args),
        }
    }

    /// Adds the words of a line's command below those that were read; where there are none, nothing is added.
    #[tactic(auto, using(crate::proofs::FirstWord::below_keyword))]
    pub fn add(&mut self, alloc: Global, words: &[&[u8]]) -> Result<(), LineError>
        ensures { ReadsInMemory result (command_fault (above_next self.old) (texts words.now)) (λ _. Adds (texts words.now) self.old self.new) }
    {
        let Some((word, args)) = words.split_first() else {
            return Ok(());
        };
        match Keyword::of(word) {
            None => Err(LineError::Fault(unknown_word(word))),
            Some(keyword) => self.add_command(alloc, keyword, args),
        }
    }
}
