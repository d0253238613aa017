use crate::coord::Coord;
use crate::fix_box::FixBox;
use crate::segment::Segment;

/// What a query asks for: the bodies whose boxes it touches.
#[derive(Clone, Copy, Debug, PartialEq, Eq)]
pub enum Shape {
    /// All points of a box, its surface included.
    Box(FixBox),
    /// One point.
    Point([Coord; 3]),
    /// All points of a segment, its ends included.
    Segment(Segment),
}
