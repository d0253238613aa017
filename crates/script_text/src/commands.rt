ghost use Rattle.std.specs.Prelude.{◌≡◌, ◌∷◌, ◌++◌, ◌<◌, [], codes, decimal};
ghost use Rattle.script_text.specs.Lines.{texts};
ghost use Rattle.script_text.specs.Fault.{Reads, ReadsInMemory, first_of};
ghost use Rattle.script_text.specs.Name.{name_fault, new_name_fault, known_names_fault};
ghost use Rattle.script_text.specs.Command.{box_words};
ghost use Rattle.script_text.specs.Fields.{corner_fault, layer_fault, order_fault, user_fault};
ghost use Rattle.script_text.specs.Fitting.{HasWords};
ghost use Rattle.script_text.specs.World.{SpellsWorld};
ghost use Rattle.script_text.specs.Grammar.{world_fault, create_fault, body_fault, batch_fault, bodies_fault, prepare_fault, move_fault, set_user_fault, box_fault, point_fault, ray_fault};

use crate::code::{Code, LineError};
use crate::command::Command;
use crate::fields::{
    box_between, check_count, read_bounds, read_corner, read_layer, read_mask, read_segment,
    read_size, read_user,
};
use crate::name_fields::{check_known_name, check_name, check_new_name, read_known_names};
use crate::names::Names;
use crate::text::{Text, TextList};
use fixed_box::FixBox;
use std::alloc::Global;
use word_map::{Config, Field};

// Each of these reads the words below the first word of a line.

/// `world BODIES STRIPES LAYERS SLOTS NODES`, for one caller.
#[tactic(auto, using(crate::proofs::Words::words_5, crate::proofs::Counts::world_count, crate::proofs::Sizes::all_within))]
pub fn read_world(args: &[&[u8]]) -> Result<Config, LineError>
    ensures { ReadsInMemory result (world_fault (texts args.now)) (SpellsWorld (texts args.now)) }
{
    let [bodies, stripes, layers, slots, nodes] = args else {
        return Err(LineError::Fault(Code::Count));
    };
    Ok(Config {
        bodies: read_size(Field::Bodies, bodies)?,
        stripes: read_size(Field::Stripes, stripes)?,
        layers: read_size(Field::Layers, layers)?,
        slots: read_size(Field::Slots, slots)?,
        nodes: read_size(Field::Nodes, nodes)?,
        passes: 1,
    })
}

/// The layer of a creation, whose name has to be new.
fn read_created_layer(names: &Names, layers: u32, name: &[u8], layer: &[u8]) -> Result<u32, Code>
    ensures { Reads result (first_of (new_name_fault names.now name.now ∷ layer_fault layers layer.now ∷ [])) (λ n. (layer.now ≡ decimal n) × (n < layers)) }
{
    check_new_name(names, name)?;
    read_layer(layers, layer)
}

/// The box of a creation and its user number, which is looked at before the order of the corners.
#[tactic(auto, using(crate::proofs::Boxes::in_order))]
fn read_created_box(
    x0: &[u8],
    y0: &[u8],
    z0: &[u8],
    x1: &[u8],
    y1: &[u8],
    z1: &[u8],
    user: &[u8],
) -> Result<(FixBox, u32), Code>
    ensures { Reads result (first_of (corner_fault x0.now y0.now z0.now ∷ corner_fault x1.now y1.now z1.now ∷ user_fault user.now ∷ order_fault (x0.now ∷ y0.now ∷ z0.now ∷ []) (x1.now ∷ y1.now ∷ z1.now ∷ []) ∷ []))
        (λ r. box_words r.0 ++ decimal r.1 ∷ [] ≡ x0.now ∷ y0.now ∷ z0.now ∷ x1.now ∷ y1.now ∷ z1.now ∷ user.now ∷ []) }
{
    let lo = read_corner(x0, y0, z0)?;
    let hi = read_corner(x1, y1, z1)?;
    let user = read_user(user)?;
    let bounds = box_between(lo, hi)?;
    Ok((bounds, user))
}

/// `create NAME LAYER BOX USER`, in a world with so many layers.
#[tactic(auto, using(crate::proofs::Words::words_9, crate::proofs::Creations::creation_parts))]
pub fn read_create(
    alloc: Global,
    names: &Names,
    layers: u32,
    args: &[&[u8]],
) -> Result<Command, LineError>
    ensures { ReadsInMemory result (create_fault names.now layers (texts args.now)) (HasWords (codes "create" ∷ texts args.now)) }
{
    let [name, layer, x0, y0, z0, x1, y1, z1, user] = args else {
        return Err(LineError::Fault(Code::Count));
    };
    let layer = read_created_layer(names, layers, name, layer)?;
    let (bounds, user) = read_created_box(x0, y0, z0, x1, y1, z1, user)?;
    Ok(Command::Create {
        name: Text::from_slice(alloc, name)?,
        layer,
        bounds,
        user,
    })
}

/// The one name of a body.
#[tactic(auto, using(crate::proofs::Words::words_1))]
pub fn read_body(alloc: Global, names: &Names, args: &[&[u8]]) -> Result<Text, LineError>
    ensures { ReadsInMemory result (body_fault names.now (texts args.now)) (λ name. name ∷ [] ≡ texts args.now) }
{
    let [name] = args else {
        return Err(LineError::Fault(Code::Count));
    };
    check_known_name(names, name)?;
    Ok(Text::from_slice(alloc, name)?)
}

/// The one name of a batch.
#[tactic(auto, using(crate::proofs::Words::words_1))]
pub fn read_batch(alloc: Global, args: &[&[u8]]) -> Result<Text, LineError>
    ensures { ReadsInMemory result (batch_fault (texts args.now)) (λ batch. batch ∷ [] ≡ texts args.now) }
{
    let [batch] = args else {
        return Err(LineError::Fault(Code::Count));
    };
    check_name(batch)?;
    Ok(Text::from_slice(alloc, batch)?)
}

/// 1 to `most` names of bodies.
pub fn read_bodies(
    alloc: Global,
    names: &Names,
    most: u32,
    args: &[&[u8]],
) -> Result<TextList, LineError>
    ensures { ReadsInMemory result (bodies_fault names.now most (texts args.now)) (λ list. list ≡ texts args.now) }
{
    check_count(args, 1, most)?;
    read_known_names(alloc, names, args)
}

/// The `prepare` whose batch, layer and names these words spell, in a world with so many layers.
fn read_prepared(
    alloc: Global,
    names: &Names,
    layers: u32,
    batch: &[u8],
    layer: &[u8],
    bodies: &[&[u8]],
) -> Result<Command, LineError>
    ensures { ReadsInMemory result (first_of (name_fault batch.now ∷ layer_fault layers layer.now ∷ known_names_fault names.now (texts bodies.now) ∷ []))
        (HasWords (codes "prepare" ∷ batch.now ∷ layer.now ∷ texts bodies.now)) }
{
    check_name(batch)?;
    let layer = read_layer(layers, layer)?;
    let bodies = read_known_names(alloc, names, bodies)?;
    Ok(Command::Prepare {
        batch: Text::from_slice(alloc, batch)?,
        layer,
        names: bodies,
    })
}

/// `prepare B LAYER NAME..` with 0 to `most` names, in a world with so many layers.
#[tactic(auto, using(crate::proofs::Counts::prepare_count, crate::proofs::Words::two_words))]
pub fn read_prepare(
    alloc: Global,
    names: &Names,
    most: u32,
    layers: u32,
    args: &[&[u8]],
) -> Result<Command, LineError>
    ensures { ReadsInMemory result (prepare_fault names.now most layers (texts args.now)) (HasWords (codes "prepare" ∷ texts args.now)) }
{
    let [batch, layer, bodies @ ..] = args else {
        return Err(LineError::Fault(Code::Count));
    };
    check_count(bodies, 0, most)?;
    read_prepared(alloc, names, layers, batch, layer, bodies)
}

/// `move NAME BOX`.
#[tactic(auto, using(crate::proofs::Words::words_7))]
pub fn read_move(alloc: Global, names: &Names, args: &[&[u8]]) -> Result<Command, LineError>
    ensures { ReadsInMemory result (move_fault names.now (texts args.now)) (HasWords (codes "move" ∷ texts args.now)) }
{
    let [name, x0, y0, z0, x1, y1, z1] = args else {
        return Err(LineError::Fault(Code::Count));
    };
    check_known_name(names, name)?;
    let bounds = read_bounds(x0, y0, z0, x1, y1, z1)?;
    Ok(Command::Move {
        name: Text::from_slice(alloc, name)?,
        bounds,
    })
}

/// `user NAME U`.
#[tactic(auto, using(crate::proofs::Words::words_2))]
pub fn read_set_user(alloc: Global, names: &Names, args: &[&[u8]]) -> Result<Command, LineError>
    ensures { ReadsInMemory result (set_user_fault names.now (texts args.now)) (HasWords (codes "user" ∷ texts args.now)) }
{
    let [name, user] = args else {
        return Err(LineError::Fault(Code::Count));
    };
    check_known_name(names, name)?;
    let user = read_user(user)?;
    Ok(Command::User {
        name: Text::from_slice(alloc, name)?,
        user,
    })
}

/// `box MASK BOX`.
#[tactic(auto, using(crate::proofs::Words::words_7))]
pub fn read_box(args: &[&[u8]]) -> Result<Command, LineError>
    ensures { ReadsInMemory result (box_fault (texts args.now)) (HasWords (codes "box" ∷ texts args.now)) }
{
    let [mask, x0, y0, z0, x1, y1, z1] = args else {
        return Err(LineError::Fault(Code::Count));
    };
    let mask = read_mask(mask)?;
    let bounds = read_bounds(x0, y0, z0, x1, y1, z1)?;
    Ok(Command::QueryBox { mask, bounds })
}

/// `point MASK x y z`.
#[tactic(auto, using(crate::proofs::Words::words_4))]
pub fn read_point(args: &[&[u8]]) -> Result<Command, LineError>
    ensures { ReadsInMemory result (point_fault (texts args.now)) (HasWords (codes "point" ∷ texts args.now)) }
{
    let [mask, x, y, z] = args else {
        return Err(LineError::Fault(Code::Count));
    };
    let mask = read_mask(mask)?;
    let at = read_corner(x, y, z)?;
    Ok(Command::QueryPoint { mask, at })
}

/// `ray MASK ox oy oz dx dy dz`.
#[tactic(auto, using(crate::proofs::Words::words_7))]
pub fn read_ray(args: &[&[u8]]) -> Result<Command, LineError>
    ensures { ReadsInMemory result (ray_fault (texts args.now)) (HasWords (codes "ray" ∷ texts args.now)) }
{
    let [mask, ox, oy, oz, dx, dy, dz] = args else {
        return Err(LineError::Fault(Code::Count));
    };
    let mask = read_mask(mask)?;
    let segment = read_segment(ox, oy, oz, dx, dy, dz)?;
    Ok(Command::QueryRay { mask, segment })
}
