ghost use Rattle.std.specs.Prelude.{◌≡◌, ◌∷◌, ◌++◌, OnOk, OnErr, take, length, decimal};
ghost use Rattle.std.specs.List.{flat_map};
ghost use Rattle.body_ident.specs.Text.{id_text};
ghost use Rattle.script_text.specs.Printed.{spaced};
ghost use Rattle.reply_text.specs.Reply.{phase_text, body_words, item_text, hits_text, reply_words, reply_text};

use crate::id_list::IdList;
use crate::multi::{MultiItem, MultiList};
use crate::refusal::Refusal;
use body_ident::BodyId;
use itoa::Buffer;
use scene_model::{BodyView, Phase};
use script_text::{append_box, append_number, append_word};
use std::alloc::AllocError;

/// The answer to a command.
#[derive(Debug, Drop)]
pub enum Reply {
    /// A body was created.
    Id(BodyId),
    /// The command was carried out.
    Done,
    /// It was not, and nothing changed.
    Refused(Refusal),
    /// What there is to know of a body.
    Body(BodyView),
    /// The id names no body that is live.
    Gone,
    /// The user numbers of several bodies.
    Multi(MultiList),
    /// The bodies that a query found, ascending by index.
    Hits(IdList),
}

/// The name of a phase in small letters.
fn phase_text(phase: Phase) -> &'static [u8]
    ensures { result.now ≡ phase_text phase }
{
    match phase {
        Phase::Out => b"out",
        Phase::Held => b"held",
        Phase::In => b"in",
    }
}

/// Appends a space and an id.
fn append_id(id: BodyId, out: &mut Vec<u8>) -> Result<(), AllocError>
    ensures ok { OnOk result (out.new.items ≡ out.old.items ++ 32 ∷ id_text id) }
    ensures err { OnErr result (take (length out.old.items) out.new.items ≡ out.old.items) }
{
    out.extend_from_slice(b" ")?;
    id.write_text(out)
}

/// Appends a space and an id, for each id.
#[tactic(auto, using(script_text::proofs::Spaced::front_kept))]
fn append_ids(ids: &[BodyId], out: &mut Vec<u8>) -> Result<(), AllocError>
    ensures ok { OnOk result (out.new.items ≡ out.old.items ++ flat_map (λ i. 32 ∷ id_text i) ids.now) }
    ensures err { OnErr result (take (length out.old.items) out.new.items ≡ out.old.items) }
{
    for id in ids {
        append_id(*id, out)?;
    }
    Ok(())
}

/// Appends what stands behind the word `hits`.
fn append_hits(ids: &[BodyId], out: &mut Vec<u8>) -> Result<(), AllocError>
    ensures ok { OnOk result (out.new.items ≡ out.old.items ++ hits_text ids.now) }
    ensures err { OnErr result (take (length out.old.items) out.new.items ≡ out.old.items) }
{
    if ids.is_empty() {
        out.extend_from_slice(b" -")
    } else {
        append_ids(ids, out)
    }
}

/// Appends an id, `=` and a user number, behind a space.
#[tactic(auto, using(script_text::proofs::Spaced::front_kept))]
fn append_user(id: BodyId, user: u32, out: &mut Vec<u8>) -> Result<(), AllocError>
    ensures ok { OnOk result (out.new.items ≡ out.old.items ++ 32 ∷ (id_text id ++ 61 ∷ decimal user)) }
    ensures err { OnErr result (take (length out.old.items) out.new.items ≡ out.old.items) }
{
    append_id(id, out)?;
    out.extend_from_slice(b"=")?;
    let mut buffer = Buffer::new();
    out.extend_from_slice(buffer.format(user).as_bytes())
}

/// Appends a space and an item.
fn append_item(item: MultiItem, out: &mut Vec<u8>) -> Result<(), AllocError>
    ensures ok { OnOk result (out.new.items ≡ out.old.items ++ 32 ∷ item_text item) }
    ensures err { OnErr result (take (length out.old.items) out.new.items ≡ out.old.items) }
{
    match item {
        MultiItem::User { id, user } => append_user(id, user, out),
        MultiItem::Gone => append_word(b"gone", out),
    }
}

/// Appends a space and an item, for each item.
#[tactic(auto, using(script_text::proofs::Spaced::front_kept))]
fn append_items(items: &[MultiItem], out: &mut Vec<u8>) -> Result<(), AllocError>
    ensures ok { OnOk result (out.new.items ≡ out.old.items ++ flat_map (λ item. 32 ∷ item_text item) items.now) }
    ensures err { OnErr result (take (length out.old.items) out.new.items ≡ out.old.items) }
{
    for item in items {
        append_item(*item, out)?;
    }
    Ok(())
}

/// Appends what stands behind the word `body`.
#[tactic(auto, using(script_text::proofs::Spaced::spaced_append, script_text::proofs::Spaced::front_kept))]
fn append_body(view: &BodyView, out: &mut Vec<u8>) -> Result<(), AllocError>
    ensures ok { OnOk result (out.new.items ≡ out.old.items ++ spaced (body_words view.now)) }
    ensures err { OnErr result (take (length out.old.items) out.new.items ≡ out.old.items) }
{
    append_id(view.id, out)?;
    append_number(view.layer, out)?;
    append_box(&view.bounds, out)?;
    append_number(view.user, out)?;
    append_word(phase_text(view.phase), out)
}

/// Appends the line of a reply without its newline; an error may leave a part of it.
fn append_reply(reply: &Reply, out: &mut Vec<u8>) -> Result<(), AllocError>
    ensures ok { OnOk result (out.new.items ≡ out.old.items ++ reply_words reply.now) }
    ensures err { OnErr result (take (length out.old.items) out.new.items ≡ out.old.items) }
{
    match reply {
        Reply::Id(id) => {
            out.extend_from_slice(b"id ")?;
            id.write_text(out)
        }
        Reply::Done => out.extend_from_slice(b"ok"),
        Reply::Refused(refusal) => {
            out.extend_from_slice(b"refused ")?;
            out.extend_from_slice(refusal.text())
        }
        Reply::Body(view) => {
            out.extend_from_slice(b"body")?;
            append_body(view, out)
        }
        Reply::Gone => out.extend_from_slice(b"gone"),
        Reply::Multi(list) => {
            out.extend_from_slice(b"multi")?;
            append_items(list.items(), out)
        }
        Reply::Hits(ids) => {
            out.extend_from_slice(b"hits")?;
            append_hits(ids.items(), out)
        }
    }
}

/// Appends the line of a reply and its newline; an error may leave a part of it.
fn append_line(reply: &Reply, out: &mut Vec<u8>) -> Result<(), AllocError>
    ensures ok { OnOk result (out.new.items ≡ out.old.items ++ reply_text reply.now) }
    ensures err { OnErr result (take (length out.old.items) out.new.items ≡ out.old.items) }
{
    append_reply(reply, out)?;
    out.extend_from_slice(b"\n")
}

/// Appends the line of a reply, with its newline. After an error the bytes are as before.
pub fn reply_line(reply: &Reply, out: &mut Vec<u8>) -> Result<(), AllocError>
    ensures ok { OnOk result (out.new.items ≡ out.old.items ++ reply_text reply.now) }
    ensures err { OnErr result (out.new.items ≡ out.old.items) }
{
    let before = out.len();
    match append_line(reply, out) {
        Ok(()) => Ok(()),
        Err(error) => {
            out.truncate(before);
            Err(error)
        }
    }
}
