//! The plain player: it carries the commands of a script out on the plain scene.
ghost use Rattle.std.specs.Prelude.{◌≡◌, ◌≤◌, ◌^◌, ℕ, Option, List, [], IfOk};
ghost use Rattle.scene_model.specs.Query.{hits};
ghost use Rattle.scene_model.specs.Scene.{next_index};
ghost use Rattle.shape_test.specs.Touched.{is_touched};
ghost use Rattle.word_map.specs.Limits.{IsConfig};
ghost use Rattle.script_player.specs.Table.{empty_table};
ghost use Rattle.script_player.specs.Attempt.{outcome};
ghost use Rattle.script_player.specs.Batches.{prepare_named, finalize_named, abort_named, add_named};
ghost use Rattle.script_player.specs.Body.{change_named};
ghost use Rattle.script_player.specs.Turn.{create_turn, turn, turn_of};
ghost use Rattle.script_player.specs.UnderWay.{IsUnderWay};
ghost use Rattle.script_player.specs.Shown.{Does, IsShownBy};

use crate::bodies::Change;
use crate::books::{Books, Known};
use crate::host::Host;
use body_ident::BodyId;
use fixed_box::{FixBox, Shape};
use reply_text::{IdList, Refusal, Reply};
use scene_model::{Entry, PlainScene};
use script_text::{Command, Text};
use shape_test::touch;
use std::alloc::{AllocError, Global};
use std::marker::Model;
use word_map::Config;

/// A script under way on a plain list of bodies. Contracts see it as a table of the world's sizes, the scene and the books.
///
/// The shared world is compared with it: what a script without actors and blocks is answered there, it is answered here.
#[derive(Debug, Drop)]
pub struct PlainPlayer {
    pub(crate) alloc: Global,
    pub(crate) world: Config,
    pub(crate) scene: PlainScene,
    pub(crate) books: Books,
}

impl Model for PlainPlayer {
    ghost use Rattle.script_player.specs.Table.{Table};

    ghost Value = { Table };

    ghost use Rattle.script_player.specs.Playing.{table_of};

    ghost view = { table_of };
}

/// The reply to a command that is carried out or refused.
pub fn outcome(refusal: Option<Refusal>) -> Reply
    ensures { result ≡ outcome refusal }
{
    match refusal {
        None => Reply::Done,
        Some(refusal) => Reply::Refused(refusal),
    }
}

impl PlainPlayer {
    /// A player of a script for a world of these sizes, with nothing done yet.
    #[tactic(auto, using(crate::proofs::Beginning::shown_first))]
    pub fn new(alloc: Global, world: Config) -> Result<PlainPlayer, AllocError>
        requires { IsConfig world }
        ensures { IfOk result (λ p. IsShownBy p (empty_table world)) }
    {
        Ok(PlainPlayer {
            alloc,
            world,
            scene: PlainScene::new(alloc, world.bodies)?,
            books: Books::new(alloc),
        })
    }

    /// `create NAME LAYER BOX USER`
    fn create(
        &mut self,
        alloc: Global,
        name: &Text,
        layer: u32,
        bounds: FixBox,
        user: u32,
    ) -> Result<Reply, AllocError>
        requires { IsUnderWay self.old }
        ensures { IfOk result (Does (create_turn self.old name.now layer bounds user (next_index self.old.scene)) self.old self.new) }
    {
        let Some(index) = self.scene.next_index() else {
            self.books.keep_name(alloc, name, None)?;
            return Ok(Reply::Refused(Refusal::Full));
        };
        let id = BodyId::new(index, self.scene.next_seq(index));
        self.scene.apply(&Entry::Create {
            index,
            layer,
            bounds,
            user,
        })?;
        self.books
            .keep_name(alloc, name, Some(Known { id, layer }))?;
        Ok(Reply::Id(id))
    }

    /// The bodies that touch a shape: `box`, `point` and `ray`.
    fn query(&self, alloc: Global, mask: u8, shape: &Shape) -> Result<Reply, AllocError>
        ensures { IfOk result (λ r. r ≡ Reply.Hits (hits (is_touched shape.now) mask self.now.scene)) }
    {
        let ids = self.scene.hits_where(alloc, mask, |b| touch(shape, b))?;
        Ok(Reply::Hits(IdList::new(ids)))
    }

    /// Changes the body that a name stands for, and answers: `destroy`, `remove`, `move` and `user`.
    fn answer_change(&mut self, name: &Text, change: Change) -> Result<Reply, AllocError>
        ensures { IfOk result (Does (turn_of (change_named self.old change name.now)) self.old self.new) }
    {
        Ok(outcome(self.change(name, change)?))
    }

    /// Adds bodies, and answers.
    fn answer_add(&mut self, alloc: Global, names: &[Text]) -> Result<Reply, AllocError>
        requires { IsUnderWay self.old }
        ensures { IfOk result (Does (turn_of (add_named self.old names.now)) self.old self.new) }
    {
        Ok(outcome(self.add(alloc, names)?))
    }

    /// Prepares a batch, and answers.
    fn answer_prepare(
        &mut self,
        alloc: Global,
        batch: &Text,
        layer: u32,
        names: &[Text],
    ) -> Result<Reply, AllocError>
        requires { IsUnderWay self.old }
        ensures { IfOk result (Does (turn_of (prepare_named self.old batch.now layer names.now)) self.old self.new) }
    {
        Ok(outcome(self.prepare(alloc, batch, layer, names)?))
    }

    /// Finalizes a batch, and answers.
    fn answer_finalize(&mut self, batch: &Text) -> Result<Reply, AllocError>
        requires { IsUnderWay self.old }
        ensures { IfOk result (Does (turn_of (finalize_named self.old batch.now)) self.old self.new) }
    {
        Ok(outcome(self.finalize(batch)?))
    }

    /// Gives a batch up, and answers.
    fn answer_abort(&mut self, batch: &Text) -> Result<Reply, AllocError>
        requires { IsUnderWay self.old }
        ensures { IfOk result (Does (turn_of (abort_named self.old batch.now)) self.old self.new) }
    {
        Ok(outcome(self.abort(batch)?))
    }

    /// Carries a command out, and answers it. After an error the player is not used again.
    fn turn(&mut self, command: &Command) -> Result<Reply, AllocError>
        requires { IsUnderWay self.old }
        ensures { IfOk result (Does (turn self.old command.now) self.old self.new) }
    {
        let alloc = self.alloc;
        match command {
            Command::Create {
                name,
                layer,
                bounds,
                user,
            } => self.create(alloc, name, *layer, *bounds, *user),
            Command::Destroy { name } => self.answer_change(name, Change::Destroy),
            Command::Add { names } => self.answer_add(alloc, names.items()),
            Command::Prepare {
                batch,
                layer,
                names,
            } => self.answer_prepare(alloc, batch, *layer, names.items()),
            Command::Finalize { batch } => self.answer_finalize(batch),
            Command::Abort { batch } => self.answer_abort(batch),
            Command::Remove { name } => self.answer_change(name, Change::Remove),
            Command::Move { name, bounds } => self.answer_change(name, Change::Move(*bounds)),
            Command::User { name, user } => self.answer_change(name, Change::SetUser(*user)),
            Command::Read { name } => Ok(self.read(name)),
            Command::Multi { names } => self.multi(alloc, names.items()),
            Command::QueryBox { mask, bounds } => self.query(alloc, *mask, &Shape::Box(*bounds)),
            Command::QueryPoint { mask, at } => self.query(alloc, *mask, &Shape::Point(*at)),
            Command::QueryRay { mask, segment } => {
                self.query(alloc, *mask, &Shape::Segment(*segment))
            }
        }
    }
}

impl Host for PlainPlayer {
    ghost shows = { IsShownBy };

    fn command(&mut self, command: &Command) -> Result<Reply, AllocError> {
        self.turn(command)
    }

    fn counts(&self) -> (u32, u32) {
        (self.scene.live_count(), self.scene.in_count())
    }
}
