//! The turns of a walk: each one loads a word, or begins or ends the walk.
ghost use Rattle.std.specs.Prelude.{◌≡◌, ◌≢◌, ◌<◌, ◌≤◌};
ghost use Rattle.pass_table.specs.Passes.{view_of, IsOf};
ghost use Rattle.tree_query.specs.declared.walk.WalkStage.TheVariants.{Begin, Word, Child, LowX, LowY, LowZ, HighX, HighY, HighZ, End, Ended};
ghost use Rattle.tree_query.specs.stages.WalkTurns.{IsUnderWalk, IsWalkTurn};

use crate::children::keep_child;
use crate::finder::Finder;
use crate::reading::is_touching;
use crate::walk::{Walk, WalkStage};
use crate::walk_steps::{begin, end, load_child, load_main, load_side, load_slot};
use pass_table::{Pass, World};

impl Walk {
    /// The turn that loads a slot.
    #[inline(always)]
    fn read_slot(&mut self, world: &World, pass: &mut Pass, finder: &mut Finder)
        requires of { IsOf world.now pass.old }
        requires under_way { IsUnderWalk self.old finder.old (view_of pass.old) }
        requires stage { self.old.stage ≡ Word }
        requires low { self.old.slot < self.old.slots }
        ensures of { IsOf world.now pass.new }
        ensures turn { IsWalkTurn self.old self.new finder.old finder.new (view_of pass.old) (view_of pass.new) }
    {
        let word = load_slot(world, pass, self.layer, self.slot);
        finder.loads += 1;
        self.take_slot(word);
    }

    /// The turn that loads the main word of a layer.
    #[inline(always)]
    fn read_main(&mut self, world: &World, pass: &mut Pass, finder: &mut Finder)
        requires of { IsOf world.now pass.old }
        requires under_way { IsUnderWalk self.old finder.old (view_of pass.old) }
        requires stage { self.old.stage ≡ Word }
        requires past { self.old.slots ≤ self.old.slot }
        ensures of { IsOf world.now pass.new }
        ensures turn { IsWalkTurn self.old self.new finder.old finder.new (view_of pass.old) (view_of pass.new) }
    {
        let word = load_main(world, pass, self.layer);
        finder.loads += 1;
        self.take_main(word);
    }

    /// The turn that loads a child of a node.
    #[inline(always)]
    fn read_child(&mut self, world: &World, pass: &mut Pass, finder: &mut Finder)
        requires of { IsOf world.now pass.old }
        requires under_way { IsUnderWalk self.old finder.old (view_of pass.old) }
        requires stage { self.old.stage ≡ Child }
        ensures of { IsOf world.now pass.new }
        ensures turn { IsWalkTurn self.old self.new finder.old finder.new (view_of pass.old) (view_of pass.new) }
    {
        let word = load_child(world, pass, self.node, self.child);
        finder.loads += 1;
        self.take_child(word);
    }

    /// The turn that loads the first side of the bound of a child.
    #[inline(always)]
    fn read_low_x(&mut self, world: &World, pass: &mut Pass, finder: &mut Finder)
        requires of { IsOf world.now pass.old }
        requires under_way { IsUnderWalk self.old finder.old (view_of pass.old) }
        requires stage { self.old.stage ≡ LowX }
        ensures of { IsOf world.now pass.new }
        ensures turn { IsWalkTurn self.old self.new finder.old finder.new (view_of pass.old) (view_of pass.new) }
    {
        self.x0 = load_side(world, pass, self.node, self.child, 0);
        finder.loads += 1;
        self.stage = WalkStage::LowY;
    }

    /// The turn that loads the second side.
    #[inline(always)]
    fn read_low_y(&mut self, world: &World, pass: &mut Pass, finder: &mut Finder)
        requires of { IsOf world.now pass.old }
        requires under_way { IsUnderWalk self.old finder.old (view_of pass.old) }
        requires stage { self.old.stage ≡ LowY }
        ensures of { IsOf world.now pass.new }
        ensures turn { IsWalkTurn self.old self.new finder.old finder.new (view_of pass.old) (view_of pass.new) }
    {
        self.y0 = load_side(world, pass, self.node, self.child, 1);
        finder.loads += 1;
        self.stage = WalkStage::LowZ;
    }

    /// The turn that loads the third side.
    #[inline(always)]
    fn read_low_z(&mut self, world: &World, pass: &mut Pass, finder: &mut Finder)
        requires of { IsOf world.now pass.old }
        requires under_way { IsUnderWalk self.old finder.old (view_of pass.old) }
        requires stage { self.old.stage ≡ LowZ }
        ensures of { IsOf world.now pass.new }
        ensures turn { IsWalkTurn self.old self.new finder.old finder.new (view_of pass.old) (view_of pass.new) }
    {
        self.z0 = load_side(world, pass, self.node, self.child, 2);
        finder.loads += 1;
        self.stage = WalkStage::HighX;
    }

    /// The turn that loads the fourth side.
    #[inline(always)]
    fn read_high_x(&mut self, world: &World, pass: &mut Pass, finder: &mut Finder)
        requires of { IsOf world.now pass.old }
        requires under_way { IsUnderWalk self.old finder.old (view_of pass.old) }
        requires stage { self.old.stage ≡ HighX }
        ensures of { IsOf world.now pass.new }
        ensures turn { IsWalkTurn self.old self.new finder.old finder.new (view_of pass.old) (view_of pass.new) }
    {
        self.x1 = load_side(world, pass, self.node, self.child, 3);
        finder.loads += 1;
        self.stage = WalkStage::HighY;
    }

    /// The turn that loads the fifth side.
    #[inline(always)]
    fn read_high_y(&mut self, world: &World, pass: &mut Pass, finder: &mut Finder)
        requires of { IsOf world.now pass.old }
        requires under_way { IsUnderWalk self.old finder.old (view_of pass.old) }
        requires stage { self.old.stage ≡ HighY }
        ensures of { IsOf world.now pass.new }
        ensures turn { IsWalkTurn self.old self.new finder.old finder.new (view_of pass.old) (view_of pass.new) }
    {
        self.y1 = load_side(world, pass, self.node, self.child, 4);
        finder.loads += 1;
        self.stage = WalkStage::HighZ;
    }

    /// The turn that loads the last side. Where the shape touches the bound, the child goes where it is to go.
    #[inline(always)]
    fn read_high_z(&mut self, world: &World, pass: &mut Pass, finder: &mut Finder)
        requires of { IsOf world.now pass.old }
        requires under_way { IsUnderWalk self.old finder.old (view_of pass.old) }
        requires stage { self.old.stage ≡ HighZ }
        ensures of { IsOf world.now pass.new }
        ensures turn { IsWalkTurn self.old self.new finder.old finder.new (view_of pass.old) (view_of pass.new) }
    {
        let z1 = load_side(world, pass, self.node, self.child, 5);
        finder.loads += 1;
        let words = [self.x0, self.y0, self.z0, self.x1, self.y1, z1];
        let touches = is_touching(&self.shape, words);
        keep_child(self.word, touches, finder, &mut self.stack);
        self.leave_child();
    }

    /// The turn that begins the walk.
    fn begin_walk(&mut self, world: &World, pass: &mut Pass, finder: &mut Finder)
        requires of { IsOf world.now pass.old }
        requires under_way { IsUnderWalk self.old finder.old (view_of pass.old) }
        requires stage { self.old.stage ≡ Begin }
        ensures of { IsOf world.now pass.new }
        ensures turn { IsWalkTurn self.old self.new finder.old finder.new (view_of pass.old) (view_of pass.new) }
    {
        begin(world, pass);
        if self.layer < self.layers {
            self.stage = WalkStage::Word;
        } else {
            self.stage = WalkStage::End;
        }
    }

    /// The turn that ends the walk.
    fn end_walk(&mut self, world: &World, pass: &mut Pass, finder: &mut Finder)
        requires of { IsOf world.now pass.old }
        requires under_way { IsUnderWalk self.old finder.old (view_of pass.old) }
        requires stage { self.old.stage ≡ End }
        ensures of { IsOf world.now pass.new }
        ensures turn { IsWalkTurn self.old self.new finder.old finder.new (view_of pass.old) (view_of pass.new) }
    {
        end(world, pass);
        self.stage = WalkStage::Ended;
    }

    /// The next turn of a walk that has not ended.
    #[inline(always)]
    pub(crate) fn turn(&mut self, world: &World, pass: &mut Pass, finder: &mut Finder)
        requires of { IsOf world.now pass.old }
        requires under_way { IsUnderWalk self.old finder.old (view_of pass.old) }
        requires more { self.old.stage ≢ Ended }
        ensures of { IsOf world.now pass.new }
        ensures turn { IsWalkTurn self.old self.new finder.old finder.new (view_of pass.old) (view_of pass.new) }
    {
        match self.stage {
            WalkStage::Begin => self.begin_walk(world, pass, finder),
            WalkStage::Word => {
                if self.slot < self.slots {
                    self.read_slot(world, pass, finder);
                } else {
                    self.read_main(world, pass, finder);
                }
            }
            WalkStage::Child => self.read_child(world, pass, finder),
            WalkStage::LowX => self.read_low_x(world, pass, finder),
            WalkStage::LowY => self.read_low_y(world, pass, finder),
            WalkStage::LowZ => self.read_low_z(world, pass, finder),
            WalkStage::HighX => self.read_high_x(world, pass, finder),
            WalkStage::HighY => self.read_high_y(world, pass, finder),
            WalkStage::HighZ => self.read_high_z(world, pass, finder),
            WalkStage::End => self.end_walk(world, pass, finder),
            WalkStage::Ended => unreachable!(),
        }
    }
}
