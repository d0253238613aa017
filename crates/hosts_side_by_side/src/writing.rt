//! Writing a script of random commands.
ghost use Rattle.std.specs.Prelude.{◌<◌, ◌≤◌};

use crate::draws::Draws;
use crate::kind::Kind;
use std::alloc::{AllocError, Global};

/// How many commands a script has.
const COMMANDS: u32 = 200;

/// Batches have one of so many names.
const BATCHES: u32 = 2;

/// No list of names is longer.
const MOST_NAMES: u32 = 3;

/// Boxes begin below this number on each axis.
const SPACE: u32 = 17;

/// No side of a box is as long as this.
const LONGEST_SIDE: u32 = 12;

/// A script that is being written.
#[derive(Drop)]
pub(crate) struct Draft {
    alloc: Global,
    text: String,
    /// The sizes of its world.
    bodies: u32,
    layers: u32,
    /// How many names it creates so far.
    names: u32,
    /// How many more it may create before it destroys one.
    spare: u32,
    ghost some: { 0 < bodies },
    ghost few: { bodies ≤ 256 },
    ghost layered: { 0 < layers },
}

impl Draft {
    /// The line of a small world, whose sizes are drawn.
    fn new(draws: &mut Draws, alloc: Global) -> Result<Draft, AllocError> {
        let bodies = draws.up_to(12);
        let layers = draws.up_to(2);
        let slots = draws.up_to(16);
        let nodes = draws.up_to(24);
        Ok(Draft {
            alloc,
            text: format!(in alloc; "world {bodies} 4 {layers} {slots} {nodes}\n")?,
            bodies,
            layers,
            names: 0,
            spare: bodies,
        })
    }

    fn put(&mut self, words: &str) -> Result<(), AllocError> {
        self.text.push_str(words)
    }

    /// A name that was created lately; it may stand for no id, or its body may be gone.
    fn put_name(&mut self, draws: &mut Draws) -> Result<(), AllocError> {
        let back = draws.below(self.bodies + 2);
        let number = self.names.saturating_sub(1).saturating_sub(back);
        self.put(&format!(in self.alloc; " n{number}")?)
    }

    /// Some names, mostly few.
    fn put_names(&mut self, draws: &mut Draws) -> Result<(), AllocError> {
        let most = draws.up_to(self.bodies.min(MOST_NAMES));
        for _ in 0..draws.up_to(most) {
            self.put_name(draws)?;
        }
        Ok(())
    }

    /// The name of a batch.
    fn put_batch(&mut self, draws: &mut Draws) -> Result<(), AllocError> {
        let number = draws.below(BATCHES);
        self.put(&format!(in self.alloc; " p{number}")?)
    }

    /// One of the layers.
    fn put_layer(&mut self, draws: &mut Draws) -> Result<(), AllocError> {
        let layer = draws.below(self.layers);
        self.put(&format!(in self.alloc; " {layer}")?)
    }

    /// A point.
    fn put_point(&mut self, draws: &mut Draws) -> Result<(), AllocError> {
        let x = draws.below(SPACE);
        let y = draws.below(SPACE);
        let z = draws.below(SPACE);
        self.put(&format!(in self.alloc; " {x} {y} {z}")?)
    }

    /// A box with sides of one length.
    fn put_box(&mut self, draws: &mut Draws) -> Result<(), AllocError> {
        let x = draws.below(SPACE);
        let y = draws.below(SPACE);
        let z = draws.below(SPACE);
        let side = draws.below(LONGEST_SIDE);
        self.put(&format!(in self.alloc; " {x} {y} {z} {} {} {}", x + side, y + side, z + side)?)
    }

    /// A step of a segment along an axis, either way.
    fn put_step(&mut self, draws: &mut Draws) -> Result<(), AllocError> {
        let length = draws.up_to(SPACE);
        if draws.is_one_in(2) {
            self.put(&format!(in self.alloc; " -{length}")?)
        } else {
            self.put(&format!(in self.alloc; " {length}")?)
        }
    }

    /// Some layers.
    fn put_mask(&mut self, draws: &mut Draws) -> Result<(), AllocError> {
        let mask = draws.below(256);
        self.put(&format!(in self.alloc; " {mask}")?)
    }

    /// A user number.
    fn put_user(&mut self, draws: &mut Draws) -> Result<(), AllocError> {
        let user = draws.below(u32::MAX);
        self.put(&format!(in self.alloc; " {user}")?)
    }

    /// What stands behind the word of a command that makes a body or a batch.
    fn put_new(&mut self, draws: &mut Draws, kind: Kind) -> Result<(), AllocError> {
        if let Kind::Create = kind {
            let number = self.names;
            self.put(&format!(in self.alloc; " n{number}")?)?;
            self.put_layer(draws)?;
            self.put_box(draws)?;
            return self.put_user(draws);
        }
        self.put_batch(draws)?;
        self.put_layer(draws)?;
        if draws.is_one_in(12) {
            return Ok(());
        }
        self.put_names(draws)
    }

    /// What stands behind the word of a query.
    fn put_query(&mut self, draws: &mut Draws, kind: Kind) -> Result<(), AllocError> {
        self.put_mask(draws)?;
        match kind {
            Kind::Box => self.put_box(draws),
            Kind::Point => self.put_point(draws),
            _ => {
                self.put_point(draws)?;
                self.put_step(draws)?;
                self.put_step(draws)?;
                self.put_step(draws)
            }
        }
    }

    /// What stands behind the word of a command.
    fn put_rest(&mut self, draws: &mut Draws, kind: Kind) -> Result<(), AllocError> {
        match kind {
            Kind::Create | Kind::Prepare => self.put_new(draws, kind),
            Kind::Destroy | Kind::Remove | Kind::Read => self.put_name(draws),
            Kind::Add | Kind::Multi => self.put_names(draws),
            Kind::Finalize | Kind::Abort => self.put_batch(draws),
            Kind::Move => {
                self.put_name(draws)?;
                self.put_box(draws)
            }
            Kind::User => {
                self.put_name(draws)?;
                self.put_user(draws)
            }
            Kind::Box | Kind::Point | Kind::Ray => self.put_query(draws, kind),
        }
    }

    /// The kind of the next command. The first one creates a body, so that there is a name.
    fn next_kind(&mut self, draws: &mut Draws) -> Kind {
        if self.names == 0 {
            return Kind::Create;
        }
        match Kind::drawn(draws.below(100)) {
            Kind::Create if self.spare == 0 => Kind::Box,
            kind => kind,
        }
    }

    /// Counts a name that is created, or that is destroyed.
    fn count(&mut self, draws: &mut Draws, kind: Kind) {
        match kind {
            Kind::Create => {
                self.names = self.names.saturating_add(1);
                self.spare = self.spare.saturating_sub(1);
            }
            // Many of these are refused.
            Kind::Destroy if draws.is_one_in(2) => self.spare = self.spare.saturating_add(1),
            _ => {}
        }
    }

    /// One command.
    fn put_command(&mut self, draws: &mut Draws) -> Result<(), AllocError> {
        let kind = self.next_kind(draws);
        self.put(kind.word())?;
        self.put_rest(draws, kind)?;
        self.count(draws, kind);
        self.put("\n")
    }
}

/// The text of a script.
pub(crate) fn script_text(draws: &mut Draws, alloc: Global) -> Result<String, AllocError> {
    let mut draft = Draft::new(draws, alloc)?;
    for _ in 0..COMMANDS {
        draft.put_command(draws)?;
    }
    Ok(draft.text)
}
