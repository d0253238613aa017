ghost use Rattle.std.specs.Prelude.{◌≡◌, ◌∷◌, ◌++◌, OnOk, OnErr, take, length, map, decimal};
ghost use Rattle.std.specs.Fmt.{signed_decimal};
ghost use Rattle.std.specs.List.{flat_map};
ghost use Rattle.script_text.specs.Command.{corner_words, box_words, segment_words};
ghost use Rattle.script_text.specs.Printed.{spaced};

use crate::text::Text;
use fixed_box::{Coord, FixBox, Segment};
use itoa::Buffer;
use std::alloc::AllocError;

// Each of these appends words, each behind a space; an error may leave a part of them.

/// A word.
pub fn append_word(word: &[u8], out: &mut Vec<u8>) -> Result<(), AllocError>
    ensures ok { OnOk result (out.new.items ≡ out.old.items ++ 32 ∷ word.now) }
    ensures err { OnErr result (take (length out.old.items) out.new.items ≡ out.old.items) }
{
    out.extend_from_slice(b" ")?;
    out.extend_from_slice(word)
}

/// A number in decimal.
pub fn append_number(number: u32, out: &mut Vec<u8>) -> Result<(), AllocError>
    ensures ok { OnOk result (out.new.items ≡ out.old.items ++ 32 ∷ decimal number) }
    ensures err { OnErr result (take (length out.old.items) out.new.items ≡ out.old.items) }
{
    let mut buffer = Buffer::new();
    append_word(buffer.format(number).as_bytes(), out)
}

/// A number with a sign, in decimal.
pub fn append_signed(number: i32, out: &mut Vec<u8>) -> Result<(), AllocError>
    ensures ok { OnOk result (out.new.items ≡ out.old.items ++ 32 ∷ signed_decimal number) }
    ensures err { OnErr result (take (length out.old.items) out.new.items ≡ out.old.items) }
{
    let mut buffer = Buffer::new();
    append_word(buffer.format(number).as_bytes(), out)
}

/// A coordinate.
fn append_coordinate(coordinate: Coord, out: &mut Vec<u8>) -> Result<(), AllocError>
    ensures ok { OnOk result (out.new.items ≡ out.old.items ++ 32 ∷ signed_decimal coordinate.value) }
    ensures err { OnErr result (take (length out.old.items) out.new.items ≡ out.old.items) }
{
    append_signed(coordinate.get(), out)
}

/// The coordinates of a corner.
#[tactic(auto, using(crate::proofs::Spaced::front_kept))]
fn append_coordinates(corner: &[Coord], out: &mut Vec<u8>) -> Result<(), AllocError>
    ensures ok { OnOk result (out.new.items ≡ out.old.items ++ flat_map (λ c. 32 ∷ signed_decimal c.value) corner.now) }
    ensures err { OnErr result (take (length out.old.items) out.new.items ≡ out.old.items) }
{
    for c in corner {
        append_coordinate(*c, out)?;
    }
    Ok(())
}

/// The words of a corner.
#[tactic(auto, using(crate::proofs::Spaced::spaced_corner))]
pub fn append_corner(corner: &[Coord; 3], out: &mut Vec<u8>) -> Result<(), AllocError>
    ensures ok { OnOk result (out.new.items ≡ out.old.items ++ spaced (corner_words corner.now)) }
    ensures err { OnErr result (take (length out.old.items) out.new.items ≡ out.old.items) }
{
    append_coordinates(corner, out)
}

/// The words of a box.
#[tactic(auto, using(crate::proofs::Spaced::spaced_append, crate::proofs::Spaced::front_kept))]
pub fn append_box(bounds: &FixBox, out: &mut Vec<u8>) -> Result<(), AllocError>
    ensures ok { OnOk result (out.new.items ≡ out.old.items ++ spaced (box_words bounds.now)) }
    ensures err { OnErr result (take (length out.old.items) out.new.items ≡ out.old.items) }
{
    append_corner(&bounds.lo, out)?;
    append_corner(&bounds.hi, out)
}

/// Steps along axes.
#[tactic(auto, using(crate::proofs::Spaced::front_kept))]
fn append_each_step(steps: &[i32], out: &mut Vec<u8>) -> Result<(), AllocError>
    ensures ok { OnOk result (out.new.items ≡ out.old.items ++ flat_map (λ n. 32 ∷ signed_decimal n) steps.now) }
    ensures err { OnErr result (take (length out.old.items) out.new.items ≡ out.old.items) }
{
    for n in steps {
        append_signed(*n, out)?;
    }
    Ok(())
}

/// The steps of a segment.
#[tactic(auto, using(crate::proofs::Spaced::spaced_steps))]
fn append_steps(steps: &[i32; 3], out: &mut Vec<u8>) -> Result<(), AllocError>
    ensures ok { OnOk result (out.new.items ≡ out.old.items ++ spaced (map signed_decimal steps.now)) }
    ensures err { OnErr result (take (length out.old.items) out.new.items ≡ out.old.items) }
{
    append_each_step(steps, out)
}

/// The words of a segment.
#[tactic(auto, using(crate::proofs::Spaced::spaced_append, crate::proofs::Spaced::front_kept))]
pub fn append_segment(segment: &Segment, out: &mut Vec<u8>) -> Result<(), AllocError>
    ensures ok { OnOk result (out.new.items ≡ out.old.items ++ spaced (segment_words segment.now)) }
    ensures err { OnErr result (take (length out.old.items) out.new.items ≡ out.old.items) }
{
    append_corner(&segment.o, out)?;
    append_steps(&segment.d, out)
}

/// Names.
#[tactic(auto, using(crate::proofs::Spaced::front_kept))]
pub fn append_names(names: &[Text], out: &mut Vec<u8>) -> Result<(), AllocError>
    ensures ok { OnOk result (out.new.items ≡ out.old.items ++ spaced names.now) }
    ensures err { OnErr result (take (length out.old.items) out.new.items ≡ out.old.items) }
{
    for name in names {
        append_word(name.items(), out)?;
    }
    Ok(())
}
