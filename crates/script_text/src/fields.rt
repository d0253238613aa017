ghost use Rattle.std.specs.Prelude.{◌≡◌, ◌<◌, ◌∷◌, [], pos, negsuc, false, IsTrue, MatchResult, ⊤, decimal, ◌-◌, ◌^◌};
ghost use Rattle.fixed_box.specs.Corner.{is_at_most};
ghost use Rattle.word_map.specs.declared.config.TheConstants.{MAX_LAYERS};
ghost use Rattle.script_text.specs.Lines.{texts};
ghost use Rattle.script_text.specs.Fault.{Reads, first_of};
ghost use Rattle.script_text.specs.Number.{Spells, SpellsNatural, number_of};
ghost use Rattle.script_text.specs.Command.{corner_words, box_words, segment_words};
ghost use Rattle.script_text.specs.Fields.{SpellsCorner, SpellsSteps, SpellsSize, count_fault, coordinate_fault, corner_fault, bounds_fault, step_fault, steps_fault, sizes_with, size_fault, layer_fault, user_fault, mask_fault};

use crate::code::Code;
use crate::number::{read_natural, read_number};
use fixed_box::{Coord, FixBox, Segment};
use word_map::{Config, Field, MAX_LAYERS, check};

/// There have to be from `lo` to `hi` words.
pub fn check_count(words: &[&[u8]], lo: u32, hi: u32) -> Result<(), Code>
    ensures { Reads result (count_fault lo hi (texts words.now)) (λ _. ⊤) }
{
    if lo as usize <= words.len() && words.len() <= hi as usize {
        Ok(())
    } else {
        Err(Code::Count)
    }
}

/// The coordinate that a word spells, in 1/1024 metre.
fn read_coordinate(word: &[u8]) -> Result<Coord, Code>
    ensures { Reads result (coordinate_fault word.now) (λ c. Spells word.now (negsuc 8388607) (pos 8388607) c.value) }
{
    let number = read_number(word, i64::from(Coord::MIN), i64::from(Coord::MAX))?;
    Coord::new(number as i32).ok_or(Code::Range)
}

/// The corner that three words spell.
pub fn read_corner(x: &[u8], y: &[u8], z: &[u8]) -> Result<[Coord; 3], Code>
    ensures { Reads result (corner_fault x.now y.now z.now) (SpellsCorner x.now y.now z.now) }
{
    let x = read_coordinate(x)?;
    let y = read_coordinate(y)?;
    let z = read_coordinate(z)?;
    Ok([x, y, z])
}

/// The box between two corners.
pub fn box_between(lo: [Coord; 3], hi: [Coord; 3]) -> Result<FixBox, Code>
    ensures { MatchResult result (λ b. (b.lo ≡ lo) × (b.hi ≡ hi) × IsTrue (is_at_most lo hi)) (λ c. (c ≡ Code.Range) × (is_at_most lo hi ≡ false)) }
{
    FixBox::new(lo, hi).ok_or(Code::Range)
}

/// The box whose low corner the first three words spell, and its high one the others.
#[tactic(auto, using(crate::proofs::Boxes::in_order))]
pub fn read_bounds(
    x0: &[u8],
    y0: &[u8],
    z0: &[u8],
    x1: &[u8],
    y1: &[u8],
    z1: &[u8],
) -> Result<FixBox, Code>
    ensures { Reads result (bounds_fault x0.now y0.now z0.now x1.now y1.now z1.now)
        (λ b. box_words b ≡ x0.now ∷ y0.now ∷ z0.now ∷ x1.now ∷ y1.now ∷ z1.now ∷ []) }
{
    let lo = read_corner(x0, y0, z0)?;
    let hi = read_corner(x1, y1, z1)?;
    box_between(lo, hi)
}

/// The step along an axis that a word spells, in 1/1024 metre.
fn read_step(word: &[u8]) -> Result<i32, Code>
    ensures { Reads result (step_fault word.now) (λ n. Spells word.now (negsuc 16777214) (pos 16777215) n) }
{
    let longest = i64::from(Segment::LONGEST);
    let step = read_number(word, -longest, longest)?;
    Ok(step as i32)
}

/// The steps along the axes that three words spell.
fn read_steps(x: &[u8], y: &[u8], z: &[u8]) -> Result<[i32; 3], Code>
    ensures { Reads result (steps_fault x.now y.now z.now) (SpellsSteps x.now y.now z.now) }
{
    let x = read_step(x)?;
    let y = read_step(y)?;
    let z = read_step(z)?;
    Ok([x, y, z])
}

/// The segment whose beginning the first three words spell, and whose steps the others.
pub fn read_segment(
    ox: &[u8],
    oy: &[u8],
    oz: &[u8],
    dx: &[u8],
    dy: &[u8],
    dz: &[u8],
) -> Result<Segment, Code>
    ensures { Reads result (first_of (corner_fault ox.now oy.now oz.now ∷ steps_fault dx.now dy.now dz.now ∷ []))
        (λ s. segment_words s ≡ ox.now ∷ oy.now ∷ oz.now ∷ dx.now ∷ dy.now ∷ dz.now ∷ []) }
{
    let o = read_corner(ox, oy, oz)?;
    let d = read_steps(dx, dy, dz)?;
    Segment::new(o, d).ok_or(Code::Range)
}

/// The sizes of the least world, but for one field.
fn sizes_with(field: Field, size: u32) -> Config
    ensures { result ≡ sizes_with field size }
{
    let mut sizes = Config {
        bodies: 1,
        stripes: 1,
        layers: 1,
        slots: 1,
        nodes: 1,
        passes: 1,
    };
    match field {
        Field::Bodies => sizes.bodies = size,
        Field::Stripes => sizes.stripes = size,
        Field::Layers => sizes.layers = size,
        Field::Slots => sizes.slots = size,
        Field::Nodes => sizes.nodes = size,
        Field::Passes => sizes.passes = size,
    }
    sizes
}

/// The size of a world that a word spells, within the limit of its field.
#[tactic(auto, using(crate::proofs::Sizes::none_broken, crate::proofs::Sizes::value_is))]
pub fn read_size(field: Field, word: &[u8]) -> Result<u32, Code>
    ensures { Reads result (size_fault field word.now) (SpellsSize field word.now) }
{
    let size = read_natural(word, 0, u32::MAX)?;
    match check(sizes_with(field, size)) {
        Ok(_) => Ok(size),
        Err(_) => Err(Code::Range),
    }
}

/// The layer that a word spells, in a world with so many layers.
pub fn read_layer(layers: u32, word: &[u8]) -> Result<u32, Code>
    ensures { Reads result (layer_fault layers word.now) (λ n. (word.now ≡ decimal n) × (n < layers)) }
{
    let layer = read_natural(word, 0, MAX_LAYERS - 1)?;
    if layer < layers {
        Ok(layer)
    } else {
        Err(Code::Range)
    }
}

/// The user number that a word spells.
pub fn read_user(word: &[u8]) -> Result<u32, Code>
    ensures { Reads result (user_fault word.now) (SpellsNatural word.now 0 4294967295) }
{
    read_natural(word, 0, u32::MAX)
}

/// The mask that a word spells: its bit l asks the layer l.
pub fn read_mask(word: &[u8]) -> Result<u8, Code>
    ensures { Reads result (mask_fault word.now) (SpellsNatural word.now 0 (2 ^ MAX_LAYERS - 1)) }
{
    let mask = read_natural(word, 0, u8::MAX as u32)?;
    Ok(mask as u8)
}
