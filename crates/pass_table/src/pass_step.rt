//! Steps that a pass makes on a word by its name.
ghost use Rattle.std.specs.Prelude.{◌≡◌, ◌≢◌, MatchResult};
ghost use Rattle.word_map.specs.Names.{IsName};
ghost use Rattle.core_state.specs.Operation.{load, store, exchange, compare_exchange, fetch_add, fetch_min, fetch_max};
ghost use Rattle.pass_table.specs.Stepping.{Stepped, Stored};
ghost use Rattle.pass_table.specs.Passes.{view_of, IsOf};

use crate::kind::{StillKind, TurningKind};
use crate::pass::Pass;
use crate::table_step;
use crate::world::World;
use word_map::Name;

impl Pass {
    /// A load of a word, of a kind that leaves the locks of the pass as they are.
    #[inline(always)]
    pub(crate) fn load<K: StillKind>(&mut self, world: &World, name: Name) -> u64
        requires of { IsOf world.now self.old }
        requires named { IsName world.now.map name }
        requires loads { K.kind.operation ≡ load }
        requires asks { K.asks (view_of self.old) name 0 0 }
        ensures of { IsOf world.now self.new }
        ensures step { Stepped K.asks K.kind (view_of self.old) name 0 0 result (view_of self.new) }
    {
        let place = world.map.place(name);
        table_step::load::<K>(&world.table.shared, &mut self.seat, place)
    }

    /// A store of a word, of a kind that leaves the locks of the pass as they are.
    #[inline(always)]
    pub(crate) fn store<K: StillKind>(&mut self, world: &World, name: Name, value: u64)
        requires of { IsOf world.now self.old }
        requires named { IsName world.now.map name }
        requires stores { K.kind.operation ≡ store }
        requires asks { K.asks (view_of self.old) name value 0 }
        ensures of { IsOf world.now self.new }
        ensures step { Stored K.asks K.kind (view_of self.old) name value (view_of self.new) }
    {
        let place = world.map.place(name);
        table_step::store::<K>(&world.table.shared, &mut self.seat, place, value);
    }

    /// A compare and exchange of a word, of a kind that leaves the locks of the pass as they are. The error is the word
    /// that was found.
    #[inline(always)]
    pub(crate) fn exchange<K: StillKind>(
        &mut self,
        world: &World,
        name: Name,
        expected: u64,
        new: u64,
    ) -> Result<(), u64>
        requires of { IsOf world.now self.old }
        requires named { IsName world.now.map name }
        requires exchanges { K.kind.operation ≡ compare_exchange }
        requires asks { K.asks (view_of self.old) name expected new }
        ensures of { IsOf world.now self.new }
        ensures step { MatchResult result (λ _. Stepped K.asks K.kind (view_of self.old) name expected new expected (view_of self.new)) (λ found. (found ≢ expected) × Stepped K.asks K.kind (view_of self.old) name expected new found (view_of self.new)) }
    {
        let place = world.map.place(name);
        let found = table_step::compare_exchange::<K>(
            &world.table.shared,
            &mut self.seat,
            place,
            expected,
            new,
        );
        if found != expected {
            return Err(found);
        }
        Ok(())
    }

    /// An exchange of a word, of a kind that leaves the locks of the pass as they are. It answers the word found.
    #[inline(always)]
    pub(crate) fn swap<K: StillKind>(&mut self, world: &World, name: Name, value: u64) -> u64
        requires of { IsOf world.now self.old }
        requires named { IsName world.now.map name }
        requires exchanges { K.kind.operation ≡ exchange }
        requires asks { K.asks (view_of self.old) name value 0 }
        ensures of { IsOf world.now self.new }
        ensures step { Stepped K.asks K.kind (view_of self.old) name value 0 result (view_of self.new) }
    {
        let place = world.map.place(name);
        table_step::exchange::<K>(&world.table.shared, &mut self.seat, place, value)
    }

    /// A fetch-min of a word, of a kind that leaves the locks of the pass as they are. It answers the word found.
    #[inline(always)]
    pub(crate) fn fetch_min<K: StillKind>(&mut self, world: &World, name: Name, value: u64) -> u64
        requires of { IsOf world.now self.old }
        requires named { IsName world.now.map name }
        requires lessens { K.kind.operation ≡ fetch_min }
        requires asks { K.asks (view_of self.old) name value 0 }
        ensures of { IsOf world.now self.new }
        ensures step { Stepped K.asks K.kind (view_of self.old) name value 0 result (view_of self.new) }
    {
        let place = world.map.place(name);
        table_step::fetch_min::<K>(&world.table.shared, &mut self.seat, place, value)
    }

    /// A fetch-max of a word, of a kind that leaves the locks of the pass as they are. It answers the word found.
    #[inline(always)]
    pub(crate) fn fetch_max<K: StillKind>(&mut self, world: &World, name: Name, value: u64) -> u64
        requires of { IsOf world.now self.old }
        requires named { IsName world.now.map name }
        requires raises { K.kind.operation ≡ fetch_max }
        requires asks { K.asks (view_of self.old) name value 0 }
        ensures of { IsOf world.now self.new }
        ensures step { Stepped K.asks K.kind (view_of self.old) name value 0 result (view_of self.new) }
    {
        let place = world.map.place(name);
        table_step::fetch_max::<K>(&world.table.shared, &mut self.seat, place, value)
    }

    /// A fetch-add of 1 to a reader word, with which the pass begins or ends to walk. It answers the word found.
    #[inline(always)]
    pub(crate) fn count_reader<K: TurningKind>(
        &mut self,
        world: &World,
        name: Name,
        walks: bool,
    ) -> u64
        requires of { IsOf world.now self.old }
        requires named { IsName world.now.map name }
        requires adds { K.kind.operation ≡ fetch_add }
        requires walks { walks ≡ K.walks }
        requires asks { K.asks (view_of self.old) name 1 0 }
        ensures of { IsOf world.now self.new }
        ensures step { Stepped K.asks K.kind (view_of self.old) name 1 0 result (view_of self.new) }
    {
        let place = world.map.place(name);
        let found = table_step::fetch_add::<K>(&world.table.shared, &mut self.seat, place, 1);
        self.walks = walks;
        found
    }
}
