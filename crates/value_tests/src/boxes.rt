use fixed_box::{Coord, FixBox, Segment, Shape};
use std::test::Fail;

fn corner(x: i32, y: i32, z: i32) -> Option<[Coord; 3]> {
    Some([Coord::new(x)?, Coord::new(y)?, Coord::new(z)?])
}

fn cube(low: i32, high: i32) -> Result<FixBox, &'static str> {
    let lo = corner(low, low, low).ok_or("low corner")?;
    let hi = corner(high, high, high).ok_or("high corner")?;
    FixBox::new(lo, hi).ok_or("order of the corners")
}

#[test]
fn words_of_coordinates(rt: HostRuntime) -> Result<(), Fail> {
    let lo = corner(-8_388_608, 0, 8_388_607).ok_or("corner")?;
    let b = FixBox::new(lo, lo).ok_or("box")?;
    let words = [1, 8_388_609, 16_777_216, 1, 8_388_609, 16_777_216];
    assert_eq!(rt; b.to_words(), words);
    assert_eq!(rt; FixBox::from_words(words), Some(b));
    assert_eq!(rt; FixBox::from_words([0, 1, 1, 1, 1, 1]), None);
    assert_eq!(rt; FixBox::from_words([1, 1, 2, 1, 1, 1]), None);
    assert_eq!(rt; FixBox::from_words([1, 1, 1, 1, 1, 16_777_217]), None);
    let empty = 33_554_432;
    assert_eq!(rt; FixBox::from_words([empty, empty, empty, 0, 0, 0]), None);
    Ok(())
}

#[test]
fn boxes_and_one_another(rt: HostRuntime) -> Result<(), Fail> {
    let a = cube(0, 10)?;
    assert!(rt; a.touches(&cube(10, 20)?), "a shared corner");
    assert!(rt; !a.touches(&cube(11, 20)?), "one apart");
    assert_eq!(rt; a.hull(&cube(5, 20)?), cube(0, 20)?);
    assert!(rt; a.contains(&cube(0, 9)?));
    assert!(rt; !a.contains(&cube(1, 11)?));
    assert_eq!(rt; FixBox::new(a.hi, a.lo), None);
    Ok(())
}

#[test]
fn shifts_stay_in_range(rt: HostRuntime) -> Result<(), Fail> {
    let a = cube(0, 8_388_600)?;
    assert_eq!(rt; a.shift([7, 7, 7]), Some(cube(7, 8_388_607)?));
    assert_eq!(rt; a.shift([7, 8, 7]), None);
    assert_eq!(rt; a.shift([2_147_483_647, 0, 0]), None);
    assert_eq!(rt; a.shift([0, 0, -2_147_483_648]), None);
    Ok(())
}

#[test]
fn shapes(rt: HostRuntime) -> Result<(), Fail> {
    let o = corner(0, 0, 0).ok_or("corner")?;
    let s = Segment::new(o, [16_777_215, 0, -16_777_215]).ok_or("segment")?;
    assert_eq!(rt; Segment::new(o, [16_777_216, 0, 0]), None);
    assert_eq!(rt; Segment::new(o, [0, 0, -16_777_216]), None);
    assert_ne!(rt; Shape::Segment(s), Shape::Point(o));
    assert_eq!(rt; s.o[0].get(), 0);
    Ok(())
}
