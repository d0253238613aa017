//! Queries.
ghost use Rattle.std.specs.Prelude.{◌≡◌, ◌≤◌};
ghost use Rattle.pass_table.specs.Belongings.{belongings_of};
ghost use Rattle.pass_table.specs.Passes.{view_of, IsIdle};

use crate::answers::{Answer, Answers};
use crate::game::Game;
use crate::kind::Kind;
use body_ident::BodyId;
use fixed_box::Shape;
use pass_table::{Pass, World};
use std::alloc::AllocError;
use std::sync::Wait;
use tree_query::{Finder, query};

/// Whether a finder holds these ids and no others, in this order.
fn holds(finder: &Finder, ids: &[BodyId]) -> bool {
    let mut found = finder.ids();
    for id in ids {
        if found.next() != Some(*id) {
            return false;
        }
    }
    found.next().is_none()
}

/// The shape that a query of a kind asks for.
fn shape_for(game: &mut Game, kind: Kind) -> Shape {
    match kind {
        Kind::QueryPoint => game.draws.a_point(),
        Kind::QuerySegment => game.draws.a_segment(),
        _ => game.draws.a_box(),
    }
}

/// Asks both sides which bodies touch a shape.
pub(crate) fn query_both<R: Wait>(
    rt: &R,
    world: &World,
    pass: &mut Pass,
    game: &mut Game,
    kind: Kind,
) -> Result<Answers, AllocError>
    requires idle { IsIdle world.now pass.old }
    requires bodies { world.now.map.bodies ≡ 64 }
    ensures idle { IsIdle world.now pass.new }
    ensures keeps { belongings_of (view_of pass.new) ≡ belongings_of (view_of pass.old) }
{
    let shape = shape_for(game, kind);
    let mask = game.draws.mask();
    query(rt, world, pass, &shape, mask, &mut game.finder);
    let ids = game.plain.hits(mask, &shape)?;
    let found = Answer::Found {
        ids: u32::try_from(ids.len()).unwrap_or(u32::MAX),
    };
    let shared = if holds(&game.finder, &ids) {
        found
    } else {
        Answer::Other
    };
    Ok(Answers {
        shared,
        plain: found,
    })
}
