//! Widening the bounds of trees for the box that a body is to have, from its locations up to the roots, one step a turn.
ghost use Rattle.std.specs.Prelude.{◌≡◌, ◌≢◌, ◌↔◌, ◌≤◌, ◌^◌, IsTrue, ℕ};
ghost use Rattle.pass_table.specs.Passes.{view_of, IsOf};
ghost use Rattle.widen_bounds.specs.declared.widening.Widening.TheVariants.{First as FirstWay, Second as SecondWay, Ended};
ghost use Rattle.widen_bounds.specs.stages.Widening.{WidensFor, IsWideningTurn, HasWidenedOn, IsBegun};

use crate::climbing::Climb;
use fixed_box::FixBox;
use pass_table::{Pass, World};
use word_map::LocationWord;

/// How far the widening for a body is.
#[derive(Clone, Copy)]
pub(crate) enum Widening {
    /// On the way up from the first location. The second location word is this.
    First { climb: Climb, second: u64 },
    /// On the way up from the second location.
    Second { climb: Climb },
    /// Both ways are closed.
    Ended,
}

impl Widening {
    /// Where the widening begins for a body at the locations that these words name.
    pub(crate) fn new(first: u64, second: u64) -> Widening
        requires first_fits { first ≤ 2 ^ 34 }
        requires second_fits { second ≤ 2 ^ 34 }
        ensures begun { IsBegun first second result }
    {
        match LocationWord::from_word(first) {
            LocationWord::At { node, child } => Widening::First {
                climb: Climb::new(node, child),
                second,
            },
            LocationWord::Nowhere => Widening::from_second(second),
        }
    }

    /// Where it goes on once the way up from the first location is closed.
    fn from_second(second: u64) -> Widening
        requires second_fits { second ≤ 2 ^ 34 }
        ensures begun { IsBegun 0 second result }
    {
        match LocationWord::from_word(second) {
            LocationWord::At { node, child } => Widening::Second {
                climb: Climb::new(node, child),
            },
            LocationWord::Nowhere => Widening::Ended,
        }
    }

    /// One step of the widening, under the stripe of the body: a side of a bound is widened, or a parent loaded.
    ///
    /// Others may widen the same bounds meanwhile, and read them; nobody makes one narrower.
    pub(crate) fn turn(&mut self, world: &World, pass: &mut Pass, target: &FixBox)
        ghost index: { ℕ }
        requires of { IsOf world.now pass.old }
        requires under_way { WidensFor index target.now self.old (view_of pass.old) }
        requires unended { self.old ≢ Ended }
        ensures of { IsOf world.now pass.new }
        ensures turn { IsWideningTurn index target.now self.old self.new (view_of pass.old) (view_of pass.new) }
    {
        *self = match *self {
            Widening::First { climb, second } => {
                Widening::on_first(world, pass, target, climb, second)
            }
            Widening::Second { climb } => Widening::on_second(world, pass, target, climb),
            Widening::Ended => Widening::Ended,
        };
    }

    /// Whether both ways are closed.
    pub(crate) fn is_ended(&self) -> bool
        ensures { IsTrue result ↔ (self.now ≡ Ended) }
    {
        matches!(self, Widening::Ended)
    }

    /// All that is left of the widening, under the stripe of the body. A way up has at most ten places, so it ends.
    pub(crate) fn widen_all(self, world: &World, pass: &mut Pass, target: &FixBox)
        ghost index: { ℕ }
        requires of { IsOf world.now pass.old }
        requires under_way { self ≢ Ended → WidensFor index target.now self (view_of pass.old) }
        ensures of { IsOf world.now pass.new }
        ensures widened { HasWidenedOn index target.now self Ended (view_of pass.old) (view_of pass.new) }
    {
        let mut widening = self;
        while !widening.is_ended() {
            widening.turn(world, pass, target);
        }
    }

    /// A step on the way up from the first location. Where it closes the way, that from the second is next.
    fn on_first(
        world: &World,
        pass: &mut Pass,
        target: &FixBox,
        climb: Climb,
        second: u64,
    ) -> Widening
        ghost index: { ℕ }
        requires of { IsOf world.now pass.old }
        requires under_way { WidensFor index target.now (FirstWay climb second) (view_of pass.old) }
        ensures of { IsOf world.now pass.new }
        ensures turn { IsWideningTurn index target.now (FirstWay climb second) result (view_of pass.old) (view_of pass.new) }
    {
        match climb.go_up(world, pass, target) {
            Some(climb) => Widening::First { climb, second },
            None => Widening::from_second(second),
        }
    }

    /// A step on the way up from the second location.
    fn on_second(world: &World, pass: &mut Pass, target: &FixBox, climb: Climb) -> Widening
        ghost index: { ℕ }
        requires of { IsOf world.now pass.old }
        requires under_way { WidensFor index target.now (SecondWay climb) (view_of pass.old) }
        ensures of { IsOf world.now pass.new }
        ensures turn { IsWideningTurn index target.now (SecondWay climb) result (view_of pass.old) (view_of pass.new) }
    {
        match climb.go_up(world, pass, target) {
            Some(climb) => Widening::Second { climb },
            None => Widening::Ended,
        }
    }
}
