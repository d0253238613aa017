//! Commands that read bodies.
ghost use Rattle.std.specs.Prelude.{◌≡◌, ◌<◌, Option, IfOk, OnOk, map, All, []};
ghost use Rattle.shape_test.specs.Touched.{is_touched};
ghost use Rattle.script_player.specs.Body.{body_of, item_of, read_named, multi_named};
ghost use Rattle.script_player.specs.Turn.{answered, query_turn};
ghost use Rattle.pass_table.specs.Passes.{view_of};
ghost use Rattle.tree_query.specs.Finding.{ids_of};
ghost use Rattle.world_host.specs.Alone.{scene_of, IsLone, Leaves};
ghost use Rattle.world_host.specs.Shown.{table_of, IsSound, Does};

use crate::query_alone::query_alone;
use crate::serial_world::SerialWorld;
use crate::users_alone::view_alone;
use body_ident::BodyId;
use fixed_box::Shape;
use pass_table::{Pass, World};
use reply_text::{IdList, MultiItem, MultiList, Refusal, Reply};
use script_player::Known;
use script_text::Text;
use std::alloc::{AllocError, Global};
use std::sync::Wait;
use tree_query::Finder;

/// What a `multi` says of the body that the id names.
fn item_alone<R: Wait>(rt: &R, world: &World, pass: &mut Pass, id: BodyId) -> MultiItem
    requires lone { IsLone world.now pass.old }
    requires below { id.index < world.now.map.bodies }
    ensures lone { IsLone world.now pass.new }
    ensures leaves { Leaves (view_of pass.old) (view_of pass.new) [] }
    ensures item { result ≡ item_of (body_of (scene_of (view_of pass.old)) id) }
{
    match view_alone(rt, world, pass, id) {
        Some(view) => MultiItem::User {
            id: view.id,
            user: view.user,
        },
        None => MultiItem::Gone,
    }
}

/// What a `multi` says of these bodies.
#[tactic(auto, using(crate::proofs::ReadItems::read_more, crate::proofs::ReadItems::read_all))]
fn items_alone<R: Wait>(
    rt: &R,
    alloc: Global,
    world: &World,
    pass: &mut Pass,
    bodies: &[Known],
) -> Result<Vec<MultiItem>, AllocError>
    requires lone { IsLone world.now pass.old }
    requires below { All (λ known. known.id.index < world.now.map.bodies) bodies.now }
    ensures lone { OnOk result (IsLone world.now pass.new) }
    ensures leaves { OnOk result (Leaves (view_of pass.old) (view_of pass.new) []) }
    ensures items { IfOk result (λ items. items.items ≡ map (λ known. item_of (body_of (scene_of (view_of pass.old)) known.id)) bodies.now) }
{
    let mut items = Vec::new(alloc);
    for known in bodies {
        items.push(item_alone(rt, world, pass, known.id))?;
    }
    Ok(items)
}

/// The ids that a finder holds.
fn found(alloc: Global, finder: &Finder) -> Result<Vec<BodyId>, AllocError>
    ensures { IfOk result (λ ids. ids.items ≡ ids_of finder.now) }
{
    finder.ids().collect(alloc)
}

impl SerialWorld {
    /// `read NAME`
    pub fn read<R: Wait>(&mut self, rt: &R, name: &Text) -> Reply
        requires sound { IsSound self.old }
        ensures { Does (answered (table_of self.old) (read_named (table_of self.old) name.now)) self.old self.new result }
    {
        let Some(known) = self.books.known(name) else {
            return Reply::Refused(Refusal::NoId);
        };
        match view_alone(rt, &self.world, &mut self.pass, known.id) {
            Some(view) => Reply::Body(view),
            None => Reply::Gone,
        }
    }

    /// `multi NAME..`
    pub fn multi<R: Wait>(
        &mut self,
        rt: &R,
        alloc: Global,
        names: &[Text],
    ) -> Result<Reply, AllocError>
        requires sound { IsSound self.old }
        ensures { IfOk result (Does (answered (table_of self.old) (multi_named (table_of self.old) names.now)) self.old self.new) }
    {
        let Some(bodies) = self.books.known_all(alloc, names)? else {
            return Ok(Reply::Refused(Refusal::NoId));
        };
        let items = items_alone(rt, alloc, &self.world, &mut self.pass, &bodies)?;
        Ok(Reply::Multi(MultiList::new(items)))
    }

    /// The bodies that touch a shape: `box`, `point` and `ray`.
    pub fn query<R: Wait>(
        &mut self,
        rt: &R,
        alloc: Global,
        mask: u8,
        shape: &Shape,
    ) -> Result<Reply, AllocError>
        requires sound { IsSound self.old }
        ensures { IfOk result (Does (query_turn (table_of self.old) mask shape.now) self.old self.new) }
    {
        query_alone(
            rt,
            &self.world,
            &mut self.pass,
            shape,
            mask,
            &mut self.finder,
        );
        Ok(Reply::Hits(IdList::new(found(alloc, &self.finder)?)))
    }
}
