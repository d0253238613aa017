ghost use Rattle.std.specs.Prelude.{◌≡◌, ◌↔◌, ◌≤◌, IsTrue, IsSome, IfSome};
ghost use Rattle.fixed_box.specs.Corner.{is_at_most, CanShift, IsShifted, IsOrdered};

use crate::coord::Coord;
use crate::corner;

/// A closed box: on each of the axes x, y, z it reaches from `lo` to `hi`, both included.
#[derive(Clone, Copy, Debug, PartialEq, Eq)]
pub struct FixBox {
    pub lo: [Coord; 3],
    pub hi: [Coord; 3],
    pub ghost ordered: { IsOrdered lo hi },
}

/// Whether these are words of coordinates, the first at most the second.
#[inline]
fn are_words(lo: u64, hi: u64) -> bool
    ensures { IsTrue result ↔ ((1 ≤ lo) × (lo ≤ hi) × (hi ≤ 16777216)) }
{
    (1 <= lo) & (lo <= hi) & (hi <= 16_777_216)
}

impl FixBox {
    ghost use Rattle.std.specs.Prelude.{ℕ, ◌≢◌, All, IfNone};
    ghost use Rattle.fixed_box.specs.declared.fix_box.FixBox.{FixBox};
    ghost use Rattle.fixed_box.specs.FixBox.{touches, contains, IsHull, words_of};

    /// The box between two corners, and `None` where on some axis the low corner is above the high one.
    pub fn new(lo: [Coord; 3], hi: [Coord; 3]) -> Option<FixBox>
        ensures ordered { IsSome result ↔ IsTrue (is_at_most lo hi) }
        ensures value { IfSome result (λ b. (b.lo ≡ lo) × (b.hi ≡ hi)) }
    {
        if corner::is_at_most(&lo, &hi) {
            Some(FixBox { lo, hi })
        } else {
            None
        }
    }

    /// Whether the two boxes share a point. Boxes are closed, so a shared face touches.
    #[inline]
    pub fn touches(&self, other: &FixBox) -> bool
        ensures { result ≡ touches self.now other.now }
    {
        corner::is_at_most(&self.lo, &other.hi) & corner::is_at_most(&other.lo, &self.hi)
    }

    /// Whether each point of the other box is a point of this one.
    #[inline]
    pub fn contains(&self, other: &FixBox) -> bool
        ensures { result ≡ contains self.now other.now }
    {
        corner::is_at_most(&self.lo, &other.lo) & corner::is_at_most(&other.hi, &self.hi)
    }

    /// The least box that contains both.
    #[inline]
    pub fn hull(&self, other: &FixBox) -> FixBox
        ensures { IsHull self.now other.now result }
    {
        FixBox {
            lo: corner::least(&self.lo, &other.lo),
            hi: corner::greatest(&self.hi, &other.hi),
        }
    }

    /// The box moved by `v`, in 1/1024 metre, and `None` where a coordinate would leave its range.
    pub fn shift(&self, v: [i32; 3]) -> Option<FixBox>
        ensures in_range { IsSome result ↔ (CanShift self.now.lo v × CanShift self.now.hi v) }
        ensures value { IfSome result
            (λ b. IsShifted self.now.lo v b.lo × IsShifted self.now.hi v b.hi) }
    {
        if corner::can_shift(&self.lo, v) & corner::can_shift(&self.hi, v) {
            Some(FixBox {
                lo: corner::shift(&self.lo, v),
                hi: corner::shift(&self.hi, v),
            })
        } else {
            None
        }
    }

    /// The words of a box: lo x, y, z and then hi x, y, z, each as `c + 8,388,609`.
    #[inline]
    pub fn to_words(&self) -> [u64; 6]
        ensures value { result ≡ words_of self.now }
        ensures range { All (λ word. (1 ≤ word) × (word ≤ 16777216)) result }
    {
        let [x0, y0, z0] = self.lo;
        let [x1, y1, z1] = self.hi;
        [
            x0.to_word(),
            y0.to_word(),
            z0.to_word(),
            x1.to_word(),
            y1.to_word(),
            z1.to_word(),
        ]
    }

    /// The box of six words, and `None` where they are not those of a box.
    #[inline]
    pub fn from_words(w: [u64; 6]) -> Option<FixBox>
        ensures some { IfSome result (λ b. words_of b ≡ w) }
        ensures none { IfNone result ((b : FixBox) → words_of b ≢ w) }
    {
        let [x0, y0, z0, x1, y1, z1] = w;
        if are_words(x0, x1) & are_words(y0, y1) & are_words(z0, z1) {
            Some(FixBox {
                lo: [
                    Coord::from_word(x0),
                    Coord::from_word(y0),
                    Coord::from_word(z0),
                ],
                hi: [
                    Coord::from_word(x1),
                    Coord::from_word(y1),
                    Coord::from_word(z1),
                ],
            })
        } else {
            None
        }
    }
}
