//! Looking, and the kinds of step on locks: what each asks and does, and the typed calls.
ghost use Rattle.std.specs.Prelude.{◌≢◌, ◌≡◌, ◌-◌, ◌^◌, ◌<◌, ℕ, MatchResult};
ghost use Rattle.word_map.specs.declared.name.Name.TheVariants.{Lock};
ghost use Rattle.word_map.specs.Names.{IsName};
ghost use Rattle.core_state.specs.Looking.{MayLook, look};
ghost use Rattle.core_state.specs.Locking.{MayLoadLock, load_lock, MayRead, take_read, MayWrite, take_write, take, bit_of};
ghost use Rattle.core_state.specs.View.{Holds};
ghost use Rattle.core_state.specs.declared.view.Mode.{Mode};
ghost use Rattle.core_state.specs.declared.view.Mode.TheVariants.{Read};
ghost use Rattle.pass_table.specs.Stepping.{Stepped};
ghost use Rattle.pass_table.specs.Holding.{MayLetGo, LetGo};
ghost use Rattle.pass_table.specs.Passes.{view_of, IsOf};

use crate::kind::{Kind, StillKind};
use crate::pass::Pass;
use crate::table_step;
use crate::world::World;
use core_state::Mode;
use word_map::Name;

/// The number of the lock whose word has the name.
fn lock_of(name: Name) -> u32
    requires { (lock : ℕ) × (name ≡ Lock lock) }
    ensures { name ≡ Lock result }
{
    match name {
        Name::Lock(lock) => lock,
        _ => unreachable!(),
    }
}

/// Kind 4: look.
pub(crate) struct Look;

impl Kind for Look {
    ghost use Rattle.core_state.specs.Looking as looking;
    ghost use Rattle.core_state.specs.Event.{looks};

    ghost asks = { looking.MayLook };

    ghost kind = { looking.look };

    ghost event = { λ before after steps. looks steps };
}

impl StillKind for Look {
    ghost use Rattle.std.proofs.Common.{refl};

    ghost still = { λ view name found first second. (refl, refl) };
}

/// Kind 4, look: a load of any word.
#[inline(always)]
pub fn step_4(world: &World, pass: &mut Pass, name: Name) -> u64
    requires of { IsOf world.now pass.old }
    requires named { IsName world.now.map name }
    ensures of { IsOf world.now pass.new }
    ensures step { Stepped MayLook look (view_of pass.old) name 0 0 result (view_of pass.new) }
{
    pass.load::<Look>(world, name)
}

/// Kind 5: load a lock word.
pub(crate) struct LoadLock;

impl Kind for LoadLock {
    ghost use Rattle.core_state.specs.Locking as locking;
    ghost use Rattle.core_state.specs.Event.{of_locks, loads_lock};

    ghost asks = { locking.MayLoadLock };

    ghost kind = { locking.load_lock };

    ghost event = { λ before after steps. of_locks (loads_lock steps) };
}

impl StillKind for LoadLock {
    ghost use Rattle.std.proofs.Common.{refl};

    ghost still = { λ view name found first second. (refl, refl) };
}

/// Kind 5, load a lock word.
#[inline(always)]
pub fn step_5(world: &World, pass: &mut Pass, name: Name) -> u64
    requires of { IsOf world.now pass.old }
    requires named { IsName world.now.map name }
    requires asks { MayLoadLock (view_of pass.old) name 0 0 }
    ensures of { IsOf world.now pass.new }
    ensures step { Stepped MayLoadLock load_lock (view_of pass.old) name 0 0 result (view_of pass.new) }
{
    pass.load::<LoadLock>(world, name)
}

/// Kind 6: take a lock to read.
pub(crate) struct TakeRead;

impl Kind for TakeRead {
    ghost use Rattle.core_state.specs.Locking as locking;
    ghost use Rattle.core_state.specs.Event.{of_locks, takes_read};

    ghost asks = { locking.MayRead };

    ghost kind = { locking.take_read };

    ghost event = { λ before after steps. of_locks (takes_read steps) };
}

/// Kind 6, take a lock to read: `new` is `old` and the own reader's bit. The error is the word that was found where it
/// was another than `old`; then nothing was stored.
#[inline(always)]
pub fn step_6(world: &World, pass: &mut Pass, name: Name, old: u64, new: u64) -> Result<(), u64>
    requires of { IsOf world.now pass.old }
    requires named { IsName world.now.map name }
    requires asks { MayRead (view_of pass.old) name old new }
    ensures of { IsOf world.now pass.new }
    ensures step { MatchResult result (λ _. Stepped MayRead take_read (view_of pass.old) name old new old (view_of pass.new)) (λ found. (found ≢ old) × Stepped MayRead take_read (view_of pass.old) name old new found (view_of pass.new)) }
{
    pass.take::<TakeRead>(world, lock_of(name), Mode::Read, old, new)
}

/// Kind 7: take a lock to write.
pub(crate) struct TakeWrite;

impl Kind for TakeWrite {
    ghost use Rattle.core_state.specs.Locking as locking;
    ghost use Rattle.core_state.specs.Event.{of_locks, takes_write};

    ghost asks = { locking.MayWrite };

    ghost kind = { locking.take_write };

    ghost event = { λ before after steps. of_locks (takes_write steps) };
}

/// Kind 7, take a lock to write: `old` is 0 and `new` the own writer's bit. The error is as that of `step_6`.
#[inline(always)]
pub fn step_7(world: &World, pass: &mut Pass, name: Name, old: u64, new: u64) -> Result<(), u64>
    requires of { IsOf world.now pass.old }
    requires named { IsName world.now.map name }
    requires asks { MayWrite (view_of pass.old) name old new }
    ensures of { IsOf world.now pass.new }
    ensures step { MatchResult result (λ _. Stepped MayWrite take_write (view_of pass.old) name old new old (view_of pass.new)) (λ found. (found ≢ old) × Stepped MayWrite take_write (view_of pass.old) name old new found (view_of pass.new)) }
{
    pass.take::<TakeWrite>(world, lock_of(name), Mode::Write, old, new)
}

/// Kind 8: release a lock.
pub(crate) struct Release;

impl Kind for Release {
    ghost use Rattle.core_state.specs.Locking as locking;
    ghost use Rattle.core_state.specs.Event.{of_locks, releases};

    ghost asks = { locking.MayRelease };

    ghost kind = { locking.release };

    ghost event = { λ before after steps. of_locks (releases steps) };
}

/// Kind 8, release a lock. What is added to its word follows from how the pass holds it. It answers the word found.
#[inline(always)]
pub fn step_8(world: &World, pass: &mut Pass, name: Name) -> u64
    requires of { IsOf world.now pass.old }
    requires named { IsName world.now.map name }
    requires may { (lock : ℕ) × (name ≡ Lock lock) × MayLetGo (view_of pass.old) lock }
    ensures of { IsOf world.now pass.new }
    ensures step { (lock : ℕ) × (name ≡ Lock lock) × LetGo (view_of pass.old) lock result (view_of pass.new) }
{
    pass.let_go(world, lock_of(name))
}

impl Pass {
    /// A compare and exchange of a lock's word, which takes the lock where it finds the word expected.
    #[inline(always)]
    pub(crate) fn take<K: Kind>(
        &mut self,
        world: &World,
        lock: u32,
        mode: Mode,
        expected: u64,
        new: u64,
    ) -> Result<(), u64>
        requires of { IsOf world.now self.old }
        requires named { IsName world.now.map (Lock lock) }
        requires takes { K.kind ≡ take mode }
        requires asks { K.asks (view_of self.old) (Lock lock) expected new }
        ensures of { IsOf world.now self.new }
        ensures step { MatchResult result (λ _. Stepped K.asks (take mode) (view_of self.old) (Lock lock) expected new expected (view_of self.new)) (λ found. (found ≢ expected) × Stepped K.asks (take mode) (view_of self.old) (Lock lock) expected new found (view_of self.new)) }
    {
        let place = world.map.place(Name::Lock(lock));
        let found = table_step::compare_exchange::<K>(
            &world.table.shared,
            &mut self.seat,
            place,
            expected,
            new,
        );
        if found != expected {
            return Err(found);
        }
        self.held.insert(lock);
        match mode {
            Mode::Read => self.written.remove(lock),
            Mode::Write => self.written.insert(lock),
        }
        Ok(())
    }

    /// A fetch-add of a lock's word that takes the own bit away, and so lets the lock go. It answers the word found.
    #[inline(always)]
    pub(crate) fn let_go(&mut self, world: &World, lock: u32) -> u64
        requires of { IsOf world.now self.old }
        requires named { IsName world.now.map (Lock lock) }
        requires may { MayLetGo (view_of self.old) lock }
        ensures of { IsOf world.now self.new }
        ensures step { LetGo (view_of self.old) lock result (view_of self.new) }
    {
        let place = world.map.place(Name::Lock(lock));
        let summand = self.taken_away(lock);
        let found = table_step::fetch_add::<Release>(
            &world.table.shared,
            &mut self.seat,
            place,
            summand,
        );
        self.held.remove(lock);
        found
    }

    /// What is added to a lock's word so that the own bit goes: 2^64 less the bit.
    #[inline(always)]
    fn taken_away(&self, lock: u32) -> u64
        requires lock { lock < 66 }
        requires holds { (mode : Mode) × Holds (view_of self.now) lock mode }
        ensures { (mode : Mode) × Holds (view_of self.now) lock mode × (result ≡ 2 ^ 64 - bit_of self.now.number mode) }
    {
        let mode = if self.written.has(lock) {
            Mode::Write
        } else {
            Mode::Read
        };
        u64::MAX - self.own_bit(mode) + 1
    }

    /// The bit of the pass in the word of a lock that it holds so.
    #[inline(always)]
    pub(crate) fn own_bit(&self, mode: Mode) -> u64
        ensures value { result ≡ bit_of self.now.number mode }
        ensures some { 0 < result }
        ensures low { mode ≡ Read → result < 2 ^ 32 }
    {
        match mode {
            Mode::Read => 1u64 << self.number,
            Mode::Write => 1u64 << (32 + self.number),
        }
    }
}
