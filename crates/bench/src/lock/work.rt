//! The work that is timed: bodies are locked, seen and unlocked.
ghost use Rattle.std.specs.Prelude.{◌≡◌, ◌<◌};
ghost use Rattle.pass_table.specs.Passes.{IsIdle};

use body_ident::BodyId;
use body_lock::lock_read;
use pass_table::{Pass, World};
use std::sync::Wait;

/// How many rounds each thread makes in a run.
pub(crate) const ROUNDS: u32 = 1_000_000;

/// How many bodies there are.
pub(crate) const BODIES: u32 = 65_536;

/// The next body is so many indexes on: a number that is odd and about the golden part of all, so that each body has its
/// turn and neighbours do not follow one another.
const STRIDE: u32 = 40_503;

/// What looks found.
#[derive(Clone, Copy)]
pub(crate) struct Found {
    /// How many bodies were seen.
    pub(crate) seen: u64,
    /// How many were gone.
    pub(crate) gone: u64,
    /// The sum of their user numbers.
    pub(crate) users: u64,
}

impl Found {
    pub(crate) const NOTHING: Found = Found {
        seen: 0,
        gone: 0,
        users: 0,
    };

    /// What two threads found.
    pub(crate) fn and(self, other: Found) -> Found {
        Found {
            seen: self.seen.wrapping_add(other.seen),
            gone: self.gone.wrapping_add(other.gone),
            users: self.users.wrapping_add(other.users),
        }
    }
}

/// Locks a body to read, looks at it and unlocks it. Answers its user number; `None` where it is gone.
#[inline(always)]
fn user_of<R: Wait>(rt: &R, world: &World, pass: &mut Pass, id: BodyId) -> Option<u32>
    requires idle { IsIdle world.now pass.old }
    requires below { id.index < world.now.map.bodies }
    ensures idle { IsIdle world.now pass.new }
{
    let guard = lock_read(rt, world, pass, id).ok()?;
    let seen = guard.view(world, pass);
    guard.unlock(world, pass);
    Some(seen.user)
}

/// All rounds of a thread, from this body on. What works is the function's own, so that it can stay in registers.
pub(crate) fn rounds<R: Wait>(rt: &R, world: &World, pass: Pass, first: u32) -> (Found, Pass)
    requires idle { IsIdle world.now pass }
    requires bodies { world.now.map.bodies ≡ 65536 }
    ensures idle { IsIdle world.now result.1 }
{
    let mut pass = pass;
    let mut found = Found::NOTHING;
    let mut index = first % BODIES;
    for _ in 0..ROUNDS {
        match user_of(rt, world, &mut pass, BodyId::new(index, 1)) {
            Some(user) => {
                found.seen = found.seen.wrapping_add(1);
                found.users = found.users.wrapping_add(u64::from(user));
            }
            None => found.gone = found.gone.wrapping_add(1),
        }
        index = (index + STRIDE) % BODIES;
    }
    (found, pass)
}
