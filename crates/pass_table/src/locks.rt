//! Taking locks and letting them go.
ghost use Rattle.std.specs.Prelude.{◌≡◌, ◌≢◌, ◌↔◌, ℕ, ◌^◌, true, ◌<◌, ◌≤◌, [], None};
ghost use Rattle.word_map.specs.declared.name.Name.TheVariants.{Lock};
ghost use Rattle.word_map.specs.Names.{IsName};
ghost use Rattle.core_state.specs.View.{HoldsNot};
ghost use Rattle.core_state.specs.declared.view.Mode.TheVariants.{Read, Write};
ghost use Rattle.pass_table.specs.Belongings.{belongings_of};
ghost use Rattle.pass_table.specs.Calls.{Adds};
ghost use Rattle.pass_table.specs.Work.{Tells};
ghost use Rattle.pass_table.specs.Turning.{MadeBy};
ghost use Rattle.pass_table.specs.TakeTurns.{taking_of, HasTaken};
ghost use Rattle.pass_table.specs.Holding.{MayLetGo, LetGo};
ghost use Rattle.pass_table.specs.Trying.{mode_if, Excludes, Leaves, HadWord, with_taken, LoadedLock, Exchanged, Tried};
ghost use Rattle.pass_table.specs.Passes.{view_of, IsOf};

use crate::kind::{step_5, step_6, step_7};
use crate::pass::Pass;
use crate::take_answer::Take;
use crate::world::World;
use core_state::Mode;
use crossbeam_utils::Backoff;
use std::sync::Wait;
use word_map::Name;

/// Lets a lock go that the pass holds, in one step.
pub fn release(world: &World, pass: &mut Pass, lock: u32)
    requires of { IsOf world.now pass.old }
    requires named { IsName world.now.map (Lock lock) }
    requires may { MayLetGo (view_of pass.old) lock }
    ensures of { IsOf world.now pass.new }
    ensures step { (found : ℕ) × LetGo (view_of pass.old) lock found (view_of pass.new) }
    ensures adds { Adds (view_of pass.old) (view_of pass.new) [] }
    ensures tells { Tells (view_of pass.old) (view_of pass.new) [] }
    ensures keeps { belongings_of (view_of pass.new) ≡ belongings_of (view_of pass.old) }
{
    pass.let_go(world, lock);
}

/// Whether the word of a lock shows a holder that excludes one who holds so: a writer excludes all, a reader writers.
#[inline(always)]
pub(crate) fn excludes(mode: Mode, word: u64) -> bool
    ensures { (result ≡ true) ↔ Excludes mode word }
{
    match mode {
        Mode::Read => word >> 32 != 0,
        Mode::Write => word != 0,
    }
}

/// The load of a try.
#[inline(always)]
pub(crate) fn load_word(world: &World, pass: &mut Pass, lock: u32) -> u64
    requires of { IsOf world.now pass.old }
    requires named { IsName world.now.map (Lock lock) }
    ensures of { IsOf world.now pass.new }
    ensures step { LoadedLock (view_of pass.old) (view_of pass.new) lock result }
    ensures left { Leaves (view_of pass.old) (view_of pass.new) (view_of pass.old).locks }
    ensures had { HadWord (view_of pass.old) (view_of pass.new) (Lock lock) result }
{
    step_5(world, pass, Name::Lock(lock))
}

/// The exchange of a try to read.
#[inline(always)]
fn exchange_to_read(world: &World, pass: &mut Pass, lock: u32, word: u64) -> Result<(), u64>
    requires of { IsOf world.now pass.old }
    requires named { IsName world.now.map (Lock lock) }
    requires free { HoldsNot (view_of pass.old) lock }
    requires no_writer { word < 2 ^ 32 }
    ensures of { IsOf world.now pass.new }
    ensures exchanged { Exchanged (view_of pass.old) (view_of pass.new) lock Read word result }
{
    let new = word + pass.own_bit(Mode::Read);
    step_6(world, pass, Name::Lock(lock), word, new)
}

/// The exchange of a try to write.
#[inline(always)]
fn exchange_to_write(world: &World, pass: &mut Pass, lock: u32, word: u64) -> Result<(), u64>
    requires of { IsOf world.now pass.old }
    requires named { IsName world.now.map (Lock lock) }
    requires free { HoldsNot (view_of pass.old) lock }
    requires unheld { word ≡ 0 }
    ensures of { IsOf world.now pass.new }
    ensures exchanged { Exchanged (view_of pass.old) (view_of pass.new) lock Write word result }
{
    let new = pass.own_bit(Mode::Write);
    step_7(world, pass, Name::Lock(lock), word, new)
}

/// The exchange of a try, where the word loaded shows nobody that excludes this one.
#[inline(always)]
pub(crate) fn exchange(
    world: &World,
    pass: &mut Pass,
    lock: u32,
    mode: Mode,
    word: u64,
) -> Result<(), u64>
    requires of { IsOf world.now pass.old }
    requires named { IsName world.now.map (Lock lock) }
    requires free { HoldsNot (view_of pass.old) lock }
    requires open { ¬ Excludes mode word }
    ensures of { IsOf world.now pass.new }
    ensures exchanged { Exchanged (view_of pass.old) (view_of pass.new) lock mode word result }
{
    match mode {
        Mode::Read => exchange_to_read(world, pass, lock, word),
        Mode::Write => exchange_to_write(world, pass, lock, word),
    }
}

/// A try to hold a lock so: one load, and where the word shows nobody that excludes this one, one exchange.
#[inline(always)]
fn try_mode(world: &World, pass: &mut Pass, lock: u32, mode: Mode) -> Take
    requires of { IsOf world.now pass.old }
    requires named { IsName world.now.map (Lock lock) }
    requires free { HoldsNot (view_of pass.old) lock }
    ensures of { IsOf world.now pass.new }
    ensures tried { Tried (view_of pass.old) (view_of pass.new) lock mode result }
{
    let loaded = load_word(world, pass, lock);
    if excludes(mode, loaded) {
        return Take::Busy { lock, word: loaded };
    }
    match exchange(world, pass, lock, mode, loaded) {
        Ok(()) => Take::Taken,
        Err(found) => Take::Lost {
            first: loaded,
            second: found,
        },
    }
}

/// Tries once to take a lock that the pass does not hold, to read or to write: one load and at most one exchange.
///
/// `Busy` comes exactly where the word loaded shows a holder that excludes this one: a writer excludes all others,
/// a reader excludes writers. `Lost` comes only where another pass changed the word between the load and the exchange.
pub fn try_take(world: &World, pass: &mut Pass, lock: u32, write: bool) -> Take
    requires of { IsOf world.now pass.old }
    requires named { IsName world.now.map (Lock lock) }
    requires free { HoldsNot (view_of pass.old) lock }
    ensures of { IsOf world.now pass.new }
    ensures tried { Tried (view_of pass.old) (view_of pass.new) lock (mode_if write) result }
    ensures adds { Adds (view_of pass.old) (view_of pass.new) [] }
    ensures tells { Tells (view_of pass.old) (view_of pass.new) [] }
    ensures keeps { belongings_of (view_of pass.new) ≡ belongings_of (view_of pass.old) }
{
    if write {
        try_mode(world, pass, lock, Mode::Write)
    } else {
        try_mode(world, pass, lock, Mode::Read)
    }
}

/// Tries until the lock is taken.
#[inline(always)]
fn take<R: Wait>(rt: &R, world: &World, pass: &mut Pass, lock: u32, mode: Mode)
    requires of { IsOf world.now pass.old }
    requires named { IsName world.now.map (Lock lock) }
    requires free { HoldsNot (view_of pass.old) lock }
    ensures of { IsOf world.now pass.new }
    ensures left { Leaves (view_of pass.old) (view_of pass.new) (with_taken (view_of pass.old) lock mode) }
    ensures taken { HasTaken (taking_of lock mode) (view_of pass.old) (view_of pass.new) }
    ensures made { MadeBy (view_of pass.old) (view_of pass.new) None }
    ensures adds { Adds (view_of pass.old) (view_of pass.new) [] }
    ensures tells { Tells (view_of pass.old) (view_of pass.new) [] }
    ensures keeps { belongings_of (view_of pass.new) ≡ belongings_of (view_of pass.old) }
{
    let backoff = Backoff::new();
    for _ in rt.forever() {
        match try_mode(world, pass, lock, mode) {
            Take::Taken => return,
            Take::Busy { .. } | Take::Lost { .. } => backoff.snooze(),
        }
    }
    unreachable!()
}

/// Takes a lock to read, and waits until no pass writes under it.
///
/// The pass may hold locks with lower numbers, so that no two passes wait for one another.
pub fn take_read<R: Wait>(rt: &R, world: &World, pass: &mut Pass, lock: u32)
    requires of { IsOf world.now pass.old }
    requires named { IsName world.now.map (Lock lock) }
    requires order { (held : ℕ) → lock ≤ held → HoldsNot (view_of pass.old) held }
    ensures of { IsOf world.now pass.new }
    ensures left { Leaves (view_of pass.old) (view_of pass.new) (with_taken (view_of pass.old) lock Read) }
    ensures taken { HasTaken (taking_of lock Read) (view_of pass.old) (view_of pass.new) }
    ensures made { MadeBy (view_of pass.old) (view_of pass.new) None }
    ensures adds { Adds (view_of pass.old) (view_of pass.new) [] }
    ensures tells { Tells (view_of pass.old) (view_of pass.new) [] }
    ensures keeps { belongings_of (view_of pass.new) ≡ belongings_of (view_of pass.old) }
{
    take(rt, world, pass, lock, Mode::Read);
}

/// Takes a lock to write, and waits until no other pass holds it.
///
/// The pass may hold locks with lower numbers, so that no two passes wait for one another.
pub fn take_write<R: Wait>(rt: &R, world: &World, pass: &mut Pass, lock: u32)
    requires of { IsOf world.now pass.old }
    requires named { IsName world.now.map (Lock lock) }
    requires order { (held : ℕ) → lock ≤ held → HoldsNot (view_of pass.old) held }
    ensures of { IsOf world.now pass.new }
    ensures left { Leaves (view_of pass.old) (view_of pass.new) (with_taken (view_of pass.old) lock Write) }
    ensures taken { HasTaken (taking_of lock Write) (view_of pass.old) (view_of pass.new) }
    ensures made { MadeBy (view_of pass.old) (view_of pass.new) None }
    ensures adds { Adds (view_of pass.old) (view_of pass.new) [] }
    ensures tells { Tells (view_of pass.old) (view_of pass.new) [] }
    ensures keeps { belongings_of (view_of pass.new) ≡ belongings_of (view_of pass.old) }
{
    take(rt, world, pass, lock, Mode::Write);
}
