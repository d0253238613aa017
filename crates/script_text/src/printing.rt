ghost use Rattle.std.specs.Prelude.{◌≡◌, [], ◌∷◌, ◌++◌, OnOk, IfOk, codes, decimal, None};
ghost use Rattle.script_text.specs.declared.command.Command.TheVariants.{Create, Prepare, Move, User, QueryBox, QueryPoint, QueryRay};
ghost use Rattle.std.specs.List.{flat_map};
ghost use Rattle.script_text.specs.Command.{world_words, command_words};
ghost use Rattle.script_text.specs.Printed.{line_text, text_of};
ghost use Rattle.script_text.specs.Line.{script_fault};
ghost use Rattle.script_text.specs.Script.{IsScriptOf};
ghost use Rattle.script_text.specs.declared.script.Script.{Script};

use crate::appending::{
    append_box, append_corner, append_names, append_number, append_segment, append_word,
};
use crate::command::Command;
use crate::script::Script;
use crate::text::Text;
use fixed_box::{Coord, FixBox, Segment};
use std::alloc::{AllocError, Global};
use word_map::Config;

/// Appends a line's first word, and a name.
fn append_named(word: &[u8], name: &[u8], out: &mut Vec<u8>) -> Result<(), AllocError>
    ensures { OnOk result (out.new.items ≡ out.old.items ++ line_text (word.now ∷ name.now ∷ [])) }
{
    out.extend_from_slice(word)?;
    append_word(name, out)
}

/// Appends a line's first word, and a number.
fn append_numbered(word: &[u8], number: u32, out: &mut Vec<u8>) -> Result<(), AllocError>
    ensures { OnOk result (out.new.items ≡ out.old.items ++ line_text (word.now ∷ decimal number ∷ [])) }
{
    out.extend_from_slice(word)?;
    append_number(number, out)
}

/// Appends a line's first word, and names.
fn append_listed(word: &[u8], names: &[Text], out: &mut Vec<u8>) -> Result<(), AllocError>
    ensures { OnOk result (out.new.items ≡ out.old.items ++ line_text (word.now ∷ names.now)) }
{
    out.extend_from_slice(word)?;
    append_names(names, out)
}

/// Appends the words of a creation.
#[tactic(auto, using(crate::proofs::Spaced::spaced_append))]
fn append_create(
    name: &Text,
    layer: u32,
    bounds: &FixBox,
    user: u32,
    out: &mut Vec<u8>,
) -> Result<(), AllocError>
    ensures { OnOk result (out.new.items ≡ out.old.items ++ line_text (command_words (Create name.now layer bounds.now user))) }
{
    append_named(b"create", name.items(), out)?;
    append_number(layer, out)?;
    append_box(bounds, out)?;
    append_number(user, out)
}

/// Appends the words of a batch that is prepared.
#[tactic(auto, using(crate::proofs::Spaced::spaced_append))]
fn append_prepare(
    batch: &Text,
    layer: u32,
    names: &[Text],
    out: &mut Vec<u8>,
) -> Result<(), AllocError>
    ensures { OnOk result (out.new.items ≡ out.old.items ++ line_text (command_words (Prepare batch.now layer names.now))) }
{
    append_named(b"prepare", batch.items(), out)?;
    append_number(layer, out)?;
    append_names(names, out)
}

/// Appends the words of a move.
fn append_move(name: &Text, bounds: &FixBox, out: &mut Vec<u8>) -> Result<(), AllocError>
    ensures { OnOk result (out.new.items ≡ out.old.items ++ line_text (command_words (Move name.now bounds.now))) }
{
    append_named(b"move", name.items(), out)?;
    append_box(bounds, out)
}

/// Appends the words that give a body a user number.
fn append_user(name: &Text, user: u32, out: &mut Vec<u8>) -> Result<(), AllocError>
    ensures { OnOk result (out.new.items ≡ out.old.items ++ line_text (command_words (User name.now user))) }
{
    append_named(b"user", name.items(), out)?;
    append_number(user, out)
}

/// Appends the words of a query of a box.
fn append_query_box(mask: u8, bounds: &FixBox, out: &mut Vec<u8>) -> Result<(), AllocError>
    ensures { OnOk result (out.new.items ≡ out.old.items ++ line_text (command_words (QueryBox mask bounds.now))) }
{
    append_numbered(b"box", u32::from(mask), out)?;
    append_box(bounds, out)
}

/// Appends the words of a query of a point.
fn append_query_point(mask: u8, at: &[Coord; 3], out: &mut Vec<u8>) -> Result<(), AllocError>
    ensures { OnOk result (out.new.items ≡ out.old.items ++ line_text (command_words (QueryPoint mask at.now))) }
{
    append_numbered(b"point", u32::from(mask), out)?;
    append_corner(at, out)
}

/// Appends the words of a query of a segment.
fn append_query_ray(mask: u8, segment: &Segment, out: &mut Vec<u8>) -> Result<(), AllocError>
    ensures { OnOk result (out.new.items ≡ out.old.items ++ line_text (command_words (QueryRay mask segment.now))) }
{
    append_numbered(b"ray", u32::from(mask), out)?;
    append_segment(segment, out)
}

/// Appends the words of a command.
fn append_command(command: &Command, out: &mut Vec<u8>) -> Result<(), AllocError>
    ensures { OnOk result (out.new.items ≡ out.old.items ++ line_text (command_words command.now)) }
{
    match command {
        Command::Create {
            name,
            layer,
            bounds,
            user,
        } => append_create(name, *layer, bounds, *user, out),
        Command::Destroy { name } => append_named(b"destroy", name.items(), out),
        Command::Add { names } => append_listed(b"add", names.items(), out),
        Command::Prepare {
            batch,
            layer,
            names,
        } => append_prepare(batch, *layer, names.items(), out),
        Command::Finalize { batch } => append_named(b"finalize", batch.items(), out),
        Command::Abort { batch } => append_named(b"abort", batch.items(), out),
        Command::Remove { name } => append_named(b"remove", name.items(), out),
        Command::Move { name, bounds } => append_move(name, bounds, out),
        Command::User { name, user } => append_user(name, *user, out),
        Command::Read { name } => append_named(b"read", name.items(), out),
        Command::Multi { names } => append_listed(b"multi", names.items(), out),
        Command::QueryBox { mask, bounds } => append_query_box(*mask, bounds, out),
        Command::QueryPoint { mask, at } => append_query_point(*mask, at, out),
        Command::QueryRay { mask, segment } => append_query_ray(*mask, segment, out),
    }
}

/// Appends the line of a command.
fn append_line(command: &Command, out: &mut Vec<u8>) -> Result<(), AllocError>
    ensures { OnOk result (out.new.items ≡ out.old.items ++ (line_text (command_words command.now) ++ codes "\n")) }
{
    append_command(command, out)?;
    out.extend_from_slice(b"\n")
}

/// Appends the lines of commands.
fn append_lines(commands: &[Command], out: &mut Vec<u8>) -> Result<(), AllocError>
    ensures { OnOk result (out.new.items ≡ out.old.items ++ flat_map (λ c. line_text (command_words c) ++ codes "\n") commands.now) }
{
    for command in commands {
        append_line(command, out)?;
    }
    Ok(())
}

/// Appends the world line.
fn append_world(world: &Config, out: &mut Vec<u8>) -> Result<(), AllocError>
    ensures { OnOk result (out.new.items ≡ out.old.items ++ (line_text (world_words world.now) ++ codes "\n")) }
{
    append_numbered(b"world", world.bodies, out)?;
    append_number(world.stripes, out)?;
    append_number(world.layers, out)?;
    append_number(world.slots, out)?;
    append_number(world.nodes, out)?;
    out.extend_from_slice(b"\n")
}

/// The text of a script: one line for each command, with one space between two words and a newline at the end.
///
/// `parse` reads the same script from it, and no other.
#[tactic(auto, using(crate::proofs::Spaced::text_by_command))]
pub fn print(alloc: Global, script: &Script) -> Result<Vec<u8>, AllocError>
    ensures text { IfOk result (λ bytes. bytes.items ≡ text_of script.now.world script.now.lines) }
    ensures read_again { IfOk result (λ bytes. (script_fault bytes.items ≡ None) × IsScriptOf bytes.items script.now) }
    ensures only { IfOk result (λ bytes. (other : Script) → IsScriptOf bytes.items other → other ≡ script.now) }
{
    let mut out = Vec::new(alloc);
    append_world(&script.world, &mut out)?;
    append_lines(script.lines.items(), &mut out)?;
    Ok(out)
}
