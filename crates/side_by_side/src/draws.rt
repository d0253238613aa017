//! What calls are made with: layers, boxes, shapes and ids, by a generator of a fixed seed.
ghost use Rattle.std.specs.Prelude.{◌<◌, ◌≤◌};

use crate::plain::Plain;
use body_ident::BodyId;
use fixed_box::{FixBox, Segment, Shape};
use rand_core::utils::NextWord;
use rand_pcg::Pcg32;

/// Boxes reach from here on, in 1/1024 metre on each axis.
const SPACE: u32 = 500;

/// No side of a box is longer, in 1/1024 metre.
const LONGEST_SIDE: u32 = 400;

/// The generator, and the box of one point from which boxes are counted.
#[derive(Drop)]
pub(crate) struct Draws {
    random: Pcg32,
    origin: FixBox,
}

impl Draws {
    /// The generator at its beginning; the same each time.
    pub(crate) fn new() -> Option<Draws> {
        Some(Draws {
            random: Pcg32::new(42, 54),
            origin: FixBox::from_words([8_388_609; 6])?,
        })
    }

    /// Any number.
    pub(crate) fn word(&mut self) -> u32 {
        self.random.next_word()
    }

    /// A number from 0 on, below so many.
    pub(crate) fn below(&mut self, many: u32) -> u32
        requires { 0 < many }
        ensures { result < many }
    {
        self.random.next_word() % many
    }

    /// A layer; the lower ones come more often, so that the slots of some are all in use in the end.
    pub(crate) fn layer(&mut self) -> u32
        ensures { result < 8 }
    {
        let one = self.below(8);
        let other = self.below(8);
        one.min(other)
    }

    /// Some layers: bit k stands for layer k.
    pub(crate) fn mask(&mut self) -> u8 {
        self.below(256) as u8
    }

    /// The box that is as far from another on each axis as is drawn, less than so many units.
    fn beside(&mut self, from: FixBox, many: u32) -> FixBox
        requires some { 0 < many }
        requires few { many < 1001 }
    {
        let x = self.below(many) as i32;
        let y = self.below(many) as i32;
        let z = self.below(many) as i32;
        from.shift([x, y, z]).unwrap_or(from)
    }

    /// A box.
    pub(crate) fn bounds(&mut self) -> FixBox {
        let low = self.beside(self.origin, SPACE);
        low.hull(&self.beside(low, LONGEST_SIDE))
    }

    /// A box to ask for.
    pub(crate) fn a_box(&mut self) -> Shape {
        Shape::Box(self.bounds())
    }

    /// A point to ask for.
    pub(crate) fn a_point(&mut self) -> Shape {
        Shape::Point(self.beside(self.origin, SPACE).lo)
    }

    /// A step of a segment on one axis, either way.
    fn step(&mut self) -> i32 {
        self.below(2 * SPACE) as i32 - 500
    }

    /// A segment to ask for.
    pub(crate) fn a_segment(&mut self) -> Shape {
        let from = self.beside(self.origin, SPACE).lo;
        let x = self.step();
        let y = self.step();
        let z = self.step();
        match Segment::new(from, [x, y, z]) {
            Some(segment) => Shape::Segment(segment),
            None => Shape::Point(from),
        }
    }

    /// The id of the last body at some index, which may be gone, or at times of the one before it.
    pub(crate) fn id(&mut self, plain: &Plain) -> BodyId
        ensures { result.index < 64 }
    {
        let index = self.below(64);
        let last = plain.last_seq(index);
        if self.below(8) == 0 {
            BodyId::new(index, last.wrapping_sub(1))
        } else {
            BodyId::new(index, last)
        }
    }

    /// An id for a batch of a layer: mostly of the next body after an index that is out and in the layer, and at times any.
    pub(crate) fn id_for(&mut self, plain: &Plain, layer: u32, after: u32) -> BodyId
        requires { after < 64 }
        ensures { result.index < 64 }
    {
        if self.below(12) == 0 {
            self.id(plain)
        } else {
            plain.out_from(layer, (after + 1) % 64)
        }
    }

    /// How many bodies a batch is to have: one to four, and at times none.
    pub(crate) fn bodies(&mut self) -> u32
        ensures { result ≤ 4 }
    {
        if self.below(20) == 0 {
            0
        } else {
            1 + self.below(4)
        }
    }
}
