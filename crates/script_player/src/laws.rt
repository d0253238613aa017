//! What follows from the meaning of scripts. No call here does anything.
ghost use Rattle.std.specs.Prelude.{◌≡◌, [], ◌∷◌, ◌++◌, ℕ, List, Option, map, length};
ghost use Rattle.std.specs.List.{flat_map};
ghost use Rattle.world_io.specs.Bytes.{Appended};
ghost use Rattle.scene_model.specs.declared.entry.Made.{Made};
ghost use Rattle.scene_model.specs.Scene.{empty_scene};
ghost use Rattle.scene_model.specs.History.{IsLawfulHistory, scene_after};
ghost use Rattle.script_text.specs.declared.script.Script.{Script};
ghost use Rattle.reply_text.specs.Reply.{reply_text};
ghost use Rattle.reply_text.specs.declared.refusal.Refusal.{Refusal};
ghost use Rattle.reply_text.specs.declared.reply.Reply.TheVariants.{Done, Refused};
ghost use Rattle.script_player.specs.Table.{empty_table};
ghost use Rattle.script_player.specs.Report.{entries_made, ArePossibleFrom, table_below, end_text, serial_report};
ghost use Rattle.script_player.specs.InLayers.{AreInLayers};
ghost use Rattle.script_player.specs.Standing.{Standing, made_alone, history_of, scene_below, history_at, scene_at, table_at, turn_at};
ghost use Rattle.script_player.specs.Exchange.{Exchange, exchanges, exchanges_at};
ghost use Rattle.script_player.specs.Prepared.{kept_at};
ghost use Rattle.script_player.specs.Refused.{IsAnsweredFirst};
ghost use Rattle.script_player.specs.Done.{MakesAsked};
ghost use Rattle.script_player.specs.Undone.{LeavesUndone};
ghost use Rattle.script_player.specs.Created.{AnswersCreate};
ghost use Rattle.script_player.specs.Queried.{AnswersQuery};
ghost use Rattle.script_player.specs.Line.{Plain, plan_of};
ghost use Rattle.script_player.specs.Meaning.{orders_report};
ghost use Rattle.script_player.specs.Event.{spans_told};
ghost use Rattle.script_player.specs.Open.{batches_left};
ghost use Rattle.script_player.specs.Alone.{serial_events};
ghost use Rattle.script_player.specs.Legal.{IsPlayed, Legal, WritesPlayed};

/// The entries that a script makes are a history: each is possible in the scene after those before it, whatever was
/// refused on the way. So a report tells of bodies that were created, held, brought in and taken out in an order that
/// may be.
#[tactic(auto, using(crate::proofs::Histories::history_of))]
pub fn script_makes_a_history()
    ensures { (script : Script) → ArePossibleFrom (empty_scene script.world.bodies) (entries_made (empty_table script.world) script.lines) }
{}

/// That history is lawful: each entry is so in the scene where it is made, and each layer that a body is created or
/// joins in is one of the world's.
pub fn script_makes_a_lawful_history()
    ensures lawful { (script : Script) → IsLawfulHistory script.world.layers script.world.bodies (history_of script.world script.lines) }
    ensures layers { (script : Script) → AreInLayers script.world.layers (entries_made (empty_table script.world) script.lines) }
{}

/// A report is the replies of all commands and then the counts of the scene that the history of the script leads to.
/// Each command's reply stands there behind those of the commands above it, and so do its entries in the history; the
/// scene on which it is played is the one that the history so far leads to.
pub fn report_tells_what_happened()
    ensures report { (script : Script) → serial_report script
        ≡ flat_map (λ e. reply_text e.reply) (exchanges (empty_table script.world) script.lines) ++ end_text (scene_below script.world script.lines) }
    ensures replies { (script : Script) (at : Standing script) → (later : List Exchange) × (exchanges (empty_table script.world) script.lines
        ≡ exchanges_at script at ++ record { command = at.command; reply = (turn_at script at).reply; made = (turn_at script at).entries } ∷ later) }
    ensures entries { (script : Script) (at : Standing script) → (later : List Made) × (history_of script.world script.lines
        ≡ history_at script at ++ (made_alone (turn_at script at).entries ++ later)) }
    ensures scene { (script : Script) (at : Standing script) → (table_at script at).scene ≡ scene_at script at }
{}

/// A `create` prints the id of the body that it created: its index, and how many bodies were created there by then.
/// Where it is refused it creates none.
pub fn create_prints_its_own_id()
    ensures { (script : Script) (at : Standing script) → AnswersCreate (history_at script at) at.command (turn_at script at) }
{}

/// A query is answered right where it stands: it finds exactly the bodies that are in the broad phase there, in a layer
/// of the mask, and touch the shape; their ids ascend by index.
pub fn query_is_answered_right()
    ensures { (script : Script) (at : Standing script)
        → AnswersQuery script.world.bodies (history_of script.world script.lines) (length (history_at script at)) at.command (turn_at script at).reply }
{}

/// Each command is refused, or carried out, just as the scene where it stands and the replies above it say: the
/// refusal is that of the first cause, in the stated order, and there is none where there is no cause. A name stands
/// for the id that its `create` printed. A batch keeps a slot of its layer and the nodes of its tree from the `prepare`
/// that took its bodies until an `abort`, or from the `add`. What `read` and `multi` tell of a body is so there.
pub fn refusal_is_the_first_cause()
    ensures { (script : Script) (at : Standing script) → IsAnsweredFirst script.world (kept_at script at) (scene_at script at)
        (exchanges_at script at) at.command (turn_at script at).reply }
{}

/// A command that is answered `ok` makes the entries that it asks for, on the bodies that its names stand for, and no
/// others: `destroy`, `remove`, `move` and `user` one, `prepare` a mark of each body, `add` for each layer that its bodies
/// were created in a mark of each and one join, `finalize` a join and `abort` an unmark of each that `prepare` marked.
pub fn done_makes_what_was_asked()
    ensures { (script : Script) (at : Standing script) → (turn_at script at).reply ≡ Done
        → MakesAsked script.world.layers (exchanges_at script at) at.command (turn_at script at).entries }
{}

/// A command that is refused leaves no entry and so the scene as it was. Of `prepare` each body that was held is let
/// go. Of `add` layers came in one after another, and of the layer that was refused all that was held was let go.
pub fn refusal_leaves_the_scene()
    ensures { (script : Script) (at : Standing script) (refusal : Refusal) → (turn_at script at).reply ≡ Refused refusal
        → LeavesUndone (scene_at script at) at.command (turn_at script at).entries }
{}

/// The meaning of all orders of a serial script, with updates, steps and velocities, gives the same report for a script of today.
pub fn orders_mean_what_commands_do()
    ensures { (script : Script) → orders_report script.world (map (λ command. Plain command) script.lines) ≡ serial_report script }
{}

/// The report of a script is a legal one up to its end, with the history that its commands make and with spans that go one after
/// another: each command is answered at its own line and right for its span, the entries that were made in it are those that it
/// asks for, and nothing is left unfinished. Where no batch is left either, the report is legal as it stands.
pub fn serial_reports_are_legal()
    ensures played { (script : Script) → IsPlayed (plan_of script) (serial_report script) (spans_told (serial_events script)) (history_of script.world script.lines) (serial_events script) [] }
    ensures legal { (script : Script) → batches_left (serial_events script) ≡ []
        → Legal (plan_of script) (serial_report script) (spans_told (serial_events script)) (history_of script.world script.lines) }
{}

/// So what `play` writes is such a report, whatever host the script is played on; the scene that the host is told by then is the
/// one that the history leads to.
pub fn what_is_played_is_legal()
    ensures written { (script : Script) (before after : Option (List ℕ)) → Appended before after (serial_report script)
        → WritesPlayed (plan_of script) before after (spans_told (serial_events script)) (history_of script.world script.lines) (serial_events script) [] }
    ensures scene { (script : Script) → (table_below (empty_table script.world) script.lines).scene ≡ scene_after script.world.bodies (history_of script.world script.lines) }
{}
