ghost use Rattle.std.specs.Prelude.{◌≡◌, ◌↔◌, ◌+ℤ◌, IsTrue, IsSome, IfSome};
ghost use Rattle.fixed_box.specs.Range.{InRange};

/// A place on one axis, in 1/1024 metre: -8,388,608 to 8,388,607, which is 8 km each way.
#[derive(Clone, Copy, Debug, PartialEq, Eq)]
pub struct Coord {
    pub value: i32,
    pub ghost in_range: { InRange value },
}

impl Coord {
    ghost use Rattle.std.specs.Prelude.{◌≤◌};
    ghost use Rattle.std.specs.Int.{int_min, int_max};
    ghost use Rattle.fixed_box.specs.Word.{word_of};

    /// The least coordinate.
    pub const MIN: i32 = -8_388_608;

    /// The greatest coordinate.
    pub const MAX: i32 = 8_388_607;

    /// The coordinate of a number, and `None` where it is out of range.
    pub fn new(v: i32) -> Option<Coord>
        ensures in_range { IsSome result ↔ InRange v }
        ensures value { IfSome result (λ c. c.value ≡ v) }
    {
        if Coord::MIN <= v && v <= Coord::MAX {
            Some(Coord { value: v })
        } else {
            None
        }
    }

    /// The number of a coordinate.
    #[inline]
    pub fn get(self) -> i32
        ensures { result ≡ self.value }
    {
        self.value
    }

    /// The lesser of two.
    #[inline]
    pub(crate) fn min(self, other: Coord) -> Coord
        ensures { result.value ≡ int_min self.value other.value }
    {
        if other.value < self.value {
            other
        } else {
            self
        }
    }

    /// The greater of two.
    #[inline]
    pub(crate) fn max(self, other: Coord) -> Coord
        ensures { result.value ≡ int_max self.value other.value }
    {
        if other.value < self.value {
            self
        } else {
            other
        }
    }

    /// Whether the place `by` further is a coordinate too.
    #[inline]
    pub(crate) fn can_shift(self, by: i32) -> bool
        ensures { IsTrue result ↔ InRange (self.value +ℤ by) }
    {
        let sum = i64::from(self.value) + i64::from(by);
        (Coord::MIN as i64 <= sum) & (sum <= Coord::MAX as i64)
    }

    /// The coordinate `by` further.
    #[inline]
    pub(crate) fn shift(self, by: i32) -> Coord
        requires { InRange (self.value +ℤ by) }
        ensures { result.value ≡ self.value +ℤ by }
    {
        Coord {
            value: (i64::from(self.value) + i64::from(by)) as i32,
        }
    }

    /// The word of a coordinate, 1 to 16,777,216.
    #[inline]
    pub(crate) fn to_word(self) -> u64
        ensures value { result ≡ word_of self.value }
        ensures least { 1 ≤ result }
        ensures greatest { result ≤ 16777216 }
    {
        (i64::from(self.value) + Coord::WORD_OF_ZERO) as u64
    }

    /// The coordinate of a word.
    #[inline]
    pub(crate) fn from_word(word: u64) -> Coord
        requires least { 1 ≤ word }
        requires greatest { word ≤ 16777216 }
        ensures { word_of result.value ≡ word }
    {
        Coord {
            value: (word as i64 - Coord::WORD_OF_ZERO) as i32,
        }
    }

    const WORD_OF_ZERO: i64 = 8_388_609;
}
