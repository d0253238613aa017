//! `touch` and `entry` of boxes, points and segments with boxes.

use crate::boxes::{a_box, a_segment, generator};
use crate::table::{Job, Table};
use fixed_box::{FixBox, Segment, Shape};
use shape_test::{entry, touch};
use std::alloc::{AllocError, Global};
use std::io;
use std::io::Print;
use std::time::Clock;

const BOXES: u32 = 4096;

const SHAPES: u32 = 256;

/// Boxes have sides of up to this part of the space.
const PARTS: u32 = 16;

/// How many calls there are for so many of the one and of the other.
fn pairs(shapes: usize, boxes: usize) -> u64 {
    (shapes as u64).saturating_mul(boxes as u64)
}

/// Asks `touch` for each shape and each box.
#[derive(Drop)]
struct Touches<'a> {
    shapes: &'a [Shape],
    boxes: &'a [FixBox],
    hits: u64,
}

impl<'a> Job for Touches<'a> {
    fn run(self) -> Touches<'a> {
        let Touches { shapes, boxes, .. } = self;
        let mut hits = 0u64;
        for shape in shapes {
            for b in boxes {
                if touch(shape, b) {
                    hits = hits.wrapping_add(1);
                }
            }
        }
        Touches {
            shapes,
            boxes,
            hits,
        }
    }

    fn calls(&self) -> u64 {
        pairs(self.shapes.len(), self.boxes.len())
    }

    fn found(&self, alloc: Global) -> Result<String, AllocError> {
        let hits = self.hits;
        format!(in alloc; "{hits} touch")
    }
}

/// Asks `entry` for each segment and each box.
#[derive(Drop)]
struct Entries<'a> {
    segments: &'a [Segment],
    boxes: &'a [FixBox],
    hits: u64,
}

impl<'a> Job for Entries<'a> {
    fn run(self) -> Entries<'a> {
        let Entries {
            segments,
            boxes,
            ..
        } = self;
        let mut hits = 0u64;
        for segment in segments {
            for b in boxes {
                if let Some(f) = entry(segment, b) {
                    hits = hits.wrapping_add(f.n.min(1));
                }
            }
        }
        Entries {
            segments,
            boxes,
            hits,
        }
    }

    fn calls(&self) -> u64 {
        pairs(self.segments.len(), self.boxes.len())
    }

    fn found(&self, alloc: Global) -> Result<String, AllocError> {
        let hits = self.hits;
        format!(in alloc; "{hits} enter from outside")
    }
}

/// Shapes of each kind, and boxes to ask them for.
#[derive(Drop)]
struct Scenery {
    boxes: Vec<FixBox>,
    box_shapes: Vec<Shape>,
    points: Vec<Shape>,
    rays: Vec<Shape>,
    segments: Vec<Segment>,
}

impl Scenery {
    /// The same each time.
    fn new(alloc: Global) -> Result<Scenery, AllocError> {
        let mut random = generator();
        let mut boxes = Vec::new(alloc);
        for _ in 0..BOXES {
            if let Some(b) = a_box(&mut random, PARTS) {
                boxes.push(b)?;
            }
        }
        let mut box_shapes = Vec::new(alloc);
        let mut points = Vec::new(alloc);
        let mut segments = Vec::new(alloc);
        let mut rays = Vec::new(alloc);
        for _ in 0..SHAPES {
            if let Some(b) = a_box(&mut random, PARTS) {
                box_shapes.push(Shape::Box(b))?;
                points.push(Shape::Point(b.lo))?;
            }
            if let Some(s) = a_segment(&mut random) {
                segments.push(s)?;
                rays.push(Shape::Segment(s))?;
            }
        }
        Ok(Scenery {
            boxes,
            box_shapes,
            points,
            rays,
            segments,
        })
    }
}

/// Writes the row of shapes of one kind.
fn touch_row<R: Clock + Print>(
    table: &Table<R>,
    what: &str,
    shapes: &[Shape],
    boxes: &[FixBox],
) -> io::Result<()> {
    let hits = 0;
    table.row(
        what,
        Touches {
            shapes,
            boxes,
            hits,
        },
    )?;
    Ok(())
}

/// Writes a row for each kind of shape.
pub(crate) fn run<R: Clock + Print>(table: &Table<R>) -> io::Result<()> {
    let scenery = Scenery::new(table.alloc())?;
    let boxes = scenery.boxes.as_slice();
    touch_row(table, "shape, boxes", &scenery.box_shapes, boxes)?;
    touch_row(table, "shape, points", &scenery.points, boxes)?;
    touch_row(table, "shape, segments", &scenery.rays, boxes)?;
    let segments = scenery.segments.as_slice();
    let hits = 0;
    table.row(
        "shape, entries of segments",
        Entries {
            segments,
            boxes,
            hits,
        },
    )?;
    Ok(())
}
