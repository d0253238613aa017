use fixed_box::{Coord, FixBox, Segment, Shape};
use shape_test::{Frac, entry, touch};
use std::test::Fail;

const GREATEST: i32 = 8_388_607;

const LEAST: i32 = -8_388_608;

fn corner(at: [i32; 3]) -> Option<[Coord; 3]> {
    Some([Coord::new(at[0])?, Coord::new(at[1])?, Coord::new(at[2])?])
}

fn segment(o: [i32; 3], d: [i32; 3]) -> Option<Segment> {
    Segment::new(corner(o)?, d)
}

fn cube(low: i32, high: i32) -> Option<FixBox> {
    FixBox::new(corner([low, low, low])?, corner([high, high, high])?)
}

#[test]
fn entries_of_a_cube(rt: HostRuntime) -> Result<(), Fail> {
    let b = cube(0, 10).ok_or("cube")?;
    let rays = [
        (
            "an edge",
            [20, 0, 0],
            [-20, 20, 20],
            Some(Frac { n: 10, m: 20 }),
        ),
        ("past the edge", [21, 0, 0], [-20, 20, 20], None),
        (
            "no step, inside",
            [5, 5, 5],
            [0, 0, 0],
            Some(Frac { n: 0, m: 1 }),
        ),
        ("no step, outside", [5, 5, 11], [0, 0, 0], None),
        (
            "begins on a corner",
            [10, 10, 10],
            [1, 1, 1],
            Some(Frac { n: 0, m: 1 }),
        ),
        (
            "ends on a corner",
            [-5, -5, -5],
            [5, 5, 5],
            Some(Frac { n: 5, m: 5 }),
        ),
        ("ends short of it", [-5, -5, -5], [4, 4, 4], None),
        (
            "along a side",
            [-10, 10, 0],
            [20, 0, 0],
            Some(Frac { n: 10, m: 20 }),
        ),
        ("beside it, no step there", [11, 5, 5], [0, -10, 0], None),
        ("leads away", [15, 5, 5], [10, 0, 0], None),
        ("out before it is in", [-10, -30, 0], [30, 31, 0], None),
        (
            "two axes at once",
            [-10, -20, 0],
            [20, 40, 0],
            Some(Frac { n: 10, m: 20 }),
        ),
        (
            "the second axis last",
            [-10, -30, 0],
            [20, 40, 1],
            Some(Frac { n: 30, m: 40 }),
        ),
        (
            "down the third axis",
            [5, 5, 30],
            [1, -1, -25],
            Some(Frac { n: 20, m: 25 }),
        ),
    ];
    for (name, o, d, want) in rays {
        let s = segment(o, d).ok_or("segment")?;
        assert_eq!(rt; entry(&s, &b), want, "{name}");
        assert_eq!(rt; touch(&Shape::Segment(s), &b), want.is_some(), "{name}");
    }
    Ok(())
}

#[test]
fn ends_of_the_ranges(rt: HostRuntime) -> Result<(), Fail> {
    let low = cube(LEAST, LEAST).ok_or("low cube")?;
    let high = cube(GREATEST, GREATEST).ok_or("high cube")?;
    let all = cube(LEAST, GREATEST).ok_or("all")?;
    let longest = Segment::LONGEST;
    let up = segment([LEAST, LEAST, LEAST], [longest, longest, longest]).ok_or("up")?;
    let down = segment(
        [GREATEST, GREATEST, GREATEST],
        [-longest, -longest, -longest],
    )
    .ok_or("down")?;
    let all_of_it = Some(Frac {
        n: 16_777_215,
        m: 16_777_215,
    });
    assert_eq!(rt; entry(&up, &high), all_of_it);
    assert_eq!(rt; entry(&down, &low), all_of_it);
    assert_eq!(rt; entry(&up, &all), Some(Frac { n: 0, m: 1 }));
    let crossing = segment([LEAST, GREATEST, 0], [longest, -longest, 0]).ok_or("crossing")?;
    assert_eq!(rt; entry(&crossing, &high), None);
    assert_eq!(rt; entry(&crossing, &cube(0, 0).ok_or("middle")?), None);
    Ok(())
}

#[test]
fn boxes_and_points(rt: HostRuntime) -> Result<(), Fail> {
    let b = cube(0, 10).ok_or("cube")?;
    assert!(rt; touch(&Shape::Box(cube(10, 20).ok_or("beside")?), &b));
    assert!(rt; !touch(&Shape::Box(cube(11, 20).ok_or("apart")?), &b));
    assert!(rt; touch(&Shape::Point(corner([10, 0, 5]).ok_or("point")?), &b));
    assert!(rt; !touch(&Shape::Point(corner([10, 0, -1]).ok_or("point")?), &b));
    Ok(())
}

/// Ways on one axis, as where it begins and its step, beside the sides 0 and 1. No step is longer than 3.
const WAYS: [(i32, i32); 14] = [
    (0, 0),
    (2, 0),
    (-3, 3),
    (-2, 3),
    (-1, 3),
    (-1, 2),
    (0, 3),
    (1, 2),
    (2, 1),
    (2, -1),
    (3, -3),
    (2, -3),
    (1, -2),
    (-1, -1),
];

/// Each fraction n/m of a way over 1, 2 or 3. One of them is the first at which a segment of such ways is
/// between all sides, if there is any: it has then come to a whole number on some axis.
const FRACTIONS: [(i32, i32); 5] = [(0, 1), (1, 3), (1, 2), (2, 3), (1, 1)];

/// Whether a way is between the sides 0 and 1 at a fraction.
fn is_between(way: (i32, i32), fraction: (i32, i32)) -> bool {
    let (begin, step) = way;
    let (n, m) = fraction;
    let place = begin.wrapping_mul(m).wrapping_add(step.wrapping_mul(n));
    0 <= place && place <= m
}

/// Whether the three ways are between the sides at one fraction.
fn meet(x: (i32, i32), y: (i32, i32), z: (i32, i32)) -> bool {
    FRACTIONS.iter().any(|f| is_between(x, *f) && is_between(y, *f) && is_between(z, *f))
}

#[test]
fn short_segments_one_fraction_after_another(rt: HostRuntime) -> Result<(), Fail> {
    let b = cube(0, 1).ok_or("cube")?;
    for x in WAYS {
        for y in WAYS {
            for z in WAYS {
                let s = segment([x.0, y.0, z.0], [x.1, y.1, z.1]).ok_or("segment")?;
                let touched = touch(&Shape::Segment(s), &b);
                assert_eq!(rt; touched, meet(x, y, z), "{x:?} {y:?} {z:?}");
            }
        }
    }
    Ok(())
}
