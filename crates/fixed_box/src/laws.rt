//! What holds of all boxes and shapes. Each contract here is a law, and its function does nothing.

ghost use Rattle.std.specs.Prelude.{◌≡◌, ◌↔◌, ◌≤ℤ◌, ◌≤◌, IsTrue};
ghost use Rattle.fixed_box.specs.Word.{word_of};
ghost use Rattle.fixed_box.specs.FixBox.{touches, contains, IsHull, SharedPoint, words_of};
ghost use Rattle.fixed_box.specs.Touch.{Touch, IsStill};
ghost use Rattle.fixed_box.specs.declared.coord.Coord.{Coord};
ghost use Rattle.fixed_box.specs.declared.fix_box.FixBox.{FixBox};
ghost use Rattle.fixed_box.specs.declared.segment.Segment.{Segment};
ghost use Rattle.fixed_box.specs.declared.shape.Shape.{Shape};

/// Two boxes touch exactly where some point lies in both.
pub fn boxes_touch_at_a_point()
    ensures { (a b : FixBox) → IsTrue (touches a b) ↔ SharedPoint a b }
{}

/// It does not matter which of two boxes is asked.
pub fn touch_is_symmetric()
    ensures { (a b : FixBox) → touches a b ≡ touches b a }
{}

/// The hull of a box with itself is that box.
pub fn hull_with_itself()
    ensures { (a hull : FixBox) → IsHull a a hull → hull ≡ a }
{}

/// Two boxes have only one hull.
pub fn hull_is_unique()
    ensures { (a b hull other : FixBox) → IsHull a b hull → IsHull a b other → hull ≡ other }
{}

/// A box as a shape touches as boxes do.
pub fn box_touches_as_a_box()
    ensures { (a b : FixBox) → Touch (Shape.Box a) b ↔ IsTrue (touches a b) }
{}

/// A segment without a step touches as the point that it begins at.
pub fn still_segment_is_its_point()
    ensures { (s : Segment) (b : FixBox) →
        IsStill s → Touch (Shape.Segment s) b ↔ Touch (Shape.Point s.o) b }
{}

/// What touches a box touches each box that contains it.
pub fn touch_reaches_outward()
    ensures { (shape : Shape) (outer inner : FixBox) →
        IsTrue (contains outer inner) → Touch shape inner → Touch shape outer }
{}

/// Boxes with the same words are the same.
pub fn words_tell_boxes_apart()
    ensures { (a b : FixBox) → words_of a ≡ words_of b → a ≡ b }
{}

/// Words are in the order of their coordinates.
pub fn words_keep_order()
    ensures { (a b : Coord) → (word_of a.value ≤ word_of b.value) ↔ (a.value ≤ℤ b.value) }
{}
