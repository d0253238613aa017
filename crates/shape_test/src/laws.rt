//! What holds of all shapes and boxes. Each contract here is a law, and its function does nothing.

ghost use Rattle.std.specs.Prelude.{◌≡◌, ◌↔◌, List, IsTrue};
ghost use Rattle.fixed_box.specs.Touch.{Touch, IsWithinAt};
ghost use Rattle.fixed_box.specs.declared.Coord.{Coord};
ghost use Rattle.fixed_box.specs.declared.FixBox.{FixBox};
ghost use Rattle.fixed_box.specs.declared.Segment.{Segment};
ghost use Rattle.fixed_box.specs.declared.Shape.{Shape};
ghost use Rattle.fixed_box.specs.declared.Shape.TheVariants.{Point, Segment as Ray};
ghost use Rattle.shape_test.specs.Entry.{IsEntry};
ghost use Rattle.shape_test.specs.Touched.{is_within_at, is_touched};
ghost use Rattle.shape_test.specs.Place.{TouchingPlace, EndsAt};
ghost use Rattle.shape_test.specs.declared.fraction.Frac.{Frac};

/// A segment touches a box exactly where one of its points is in it.
pub fn segment_touches_at_a_place()
    ensures { (s : Segment) (b : FixBox) → Touch (Ray s) b ↔ TouchingPlace s b }
{}

/// A segment touches each box that the point touches at which it begins.
pub fn segment_touches_where_it_begins()
    ensures { (s : Segment) (b : FixBox) → Touch (Point s.o) b → Touch (Ray s) b }
{}

/// A segment touches each box that the point touches at which it ends.
pub fn segment_touches_where_it_ends()
    ensures { (s : Segment) (b : FixBox) (end : List Coord) →
        EndsAt s end → Touch (Point end) b → Touch (Ray s) b }
{}

/// A segment has one entry into a box, written in one way.
pub fn entry_is_unique()
    ensures { (s : Segment) (b : FixBox) (f g : Frac) → IsEntry s b f → IsEntry s b g → f ≡ g }
{}

/// A shape touches a box exactly where the test says so. For a segment it tries four fractions of the way, each
/// by a test that says exactly whether the segment is in the box there.
pub fn touch_is_decided()
    ensures touch { (shape : Shape) (b : FixBox) → IsTrue (is_touched shape b) ↔ Touch shape b }
    ensures within { (s : Segment) (b : FixBox) (f : Frac) → IsTrue (is_within_at s b f) ↔ IsWithinAt s b f.n f.m }
{}
