//! Plays a script on a host and writes its report.
ghost use Rattle.std.specs.Prelude.{◌≡◌, ◌≤◌, ◌++◌, Option, List, IfOk, OnOk, OnErr, IsErrOf};
ghost use Rattle.world_io.specs.Bytes.{Appended, AppendedPart};
ghost use Rattle.world_io.specs.Faults.{Rose};
ghost use Rattle.scene_model.specs.Query.{live_count, in_count};
ghost use Rattle.reply_text.specs.Reply.{reply_text};
ghost use Rattle.script_player.specs.Table.{Table, empty_table};
ghost use Rattle.script_player.specs.Hosts.{IsToldFor, IsToldForAll, HasLine, Writes, WritesPart, Plays, PlaysPart};
ghost use Rattle.script_player.specs.Report.{table_below, end_text_of, end_text, serial_report};
ghost use Rattle.script_player.specs.declared.playing.PlayFault.TheVariants.{Write, Memory};

use crate::host::Host;
use itoa::Buffer;
use reply_text::reply_line;
use script_text::{Command, Script};
use std::alloc::{AllocError, Global};
use thiserror::Error;
use world_io::{Failed, Sink, write_all};

/// Why a script was not played to its end.
#[derive(Clone, Copy, Debug, PartialEq, Eq, Error)]
pub enum PlayFault {
    /// A write failed.
    #[error("a write failed")]
    Write,
    /// Want of memory.
    #[error("want of memory")]
    Memory,
}

impl From<AllocError> for PlayFault {
    ghost from_gives = { λ _ e. e ≡ Memory };

    fn from(_e: AllocError) -> PlayFault {
        PlayFault::Memory
    }
}

impl From<Failed> for PlayFault {
    ghost from_gives = { λ _ e. e ≡ Write };

    fn from(_e: Failed) -> PlayFault {
        PlayFault::Write
    }
}

/// Carries a command out, and puts the line of its reply into a list, in the place of what it holds.
fn answer<H: Host>(host: &mut H, command: &Command, line: &mut Vec<u8>) -> Result<(), AllocError>
    requires { IsToldFor H.shows host.old command.now }
    ensures { OnOk result (HasLine H.shows command.now host.old host.new line.new.items) }
{
    let reply = host.command(command)?;
    line.clear();
    reply_line(&reply, line)
}

/// Carries a command out and writes the line of its reply.
fn play_command<H: Host, K: Sink>(
    host: &mut H,
    command: &Command,
    line: &mut Vec<u8>,
    sink: &mut K,
) -> Result<(), PlayFault>
    requires { IsToldFor H.shows host.old command.now }
    ensures ok { OnOk result (Writes H.shows command.now host.old host.new (K.contents sink.old) (K.contents sink.new)) }
    ensures part { OnErr result (WritesPart H.shows command.now host.old (K.contents sink.old) (K.contents sink.new)) }
    ensures fault { IsErrOf result PlayFault.Write → Rose (K.faults sink.old) (K.faults sink.new) }
    ensures counted { K.faults sink.old ≤ K.faults sink.new }
{
    answer(host, command, line)?;
    write_all(sink, line.as_slice())?;
    Ok(())
}

/// Puts the last line of a report into a list, in the place of what it holds.
fn end_line(live: u32, inside: u32, line: &mut Vec<u8>) -> Result<(), AllocError>
    ensures { OnOk result (line.new.items ≡ end_text_of live inside) }
{
    let mut buffer = Buffer::new();
    line.clear();
    line.extend_from_slice(b"end live ")?;
    line.extend_from_slice(buffer.format(live).as_bytes())?;
    line.extend_from_slice(b" in ")?;
    line.extend_from_slice(buffer.format(inside).as_bytes())?;
    line.extend_from_slice(b"\n")?;
    Ok(())
}

/// Writes the last line of a report.
#[tactic(auto, using(crate::proofs::Writing::nothing_written))]
fn write_end<K: Sink>(
    live: u32,
    inside: u32,
    line: &mut Vec<u8>,
    sink: &mut K,
) -> Result<(), PlayFault>
    ensures ok { OnOk result (Appended (K.contents sink.old) (K.contents sink.new) (end_text_of live inside)) }
    ensures part { OnErr result (AppendedPart (K.contents sink.old) (K.contents sink.new) (end_text_of live inside)) }
    ensures fault { IsErrOf result PlayFault.Write → Rose (K.faults sink.old) (K.faults sink.new) }
    ensures counted { K.faults sink.old ≤ K.faults sink.new }
{
    end_line(live, inside, line)?;
    write_all(sink, line.as_slice())?;
    Ok(())
}

/// Writes the last line of a report, of the bodies that a host has.
fn play_end<H: Host, K: Sink>(host: &H, line: &mut Vec<u8>, sink: &mut K) -> Result<(), PlayFault>
    ensures ok { OnOk result ((table : Table) → H.shows host.now table → Appended (K.contents sink.old) (K.contents sink.new) (end_text table.scene)) }
    ensures part { OnErr result ((table : Table) → H.shows host.now table → AppendedPart (K.contents sink.old) (K.contents sink.new) (end_text table.scene)) }
    ensures fault { IsErrOf result PlayFault.Write → Rose (K.faults sink.old) (K.faults sink.new) }
    ensures counted { K.faults sink.old ≤ K.faults sink.new }
{
    let (live, inside) = host.counts();
    write_end(live, inside, line, sink)
}

/// Writes the replies to commands, one line each.
fn play_commands<H: Host, K: Sink>(
    host: &mut H,
    commands: &[Command],
    line: &mut Vec<u8>,
    sink: &mut K,
) -> Result<(), PlayFault>
    requires { IsToldForAll H.shows host.old commands.now }
    ensures ok { OnOk result (Plays H.shows commands.now host.old host.new (K.contents sink.old) (K.contents sink.new)) }
    ensures part { OnErr result (PlaysPart H.shows commands.now host.old (K.contents sink.old) (K.contents sink.new)) }
    ensures fault { IsErrOf result PlayFault.Write → Rose (K.faults sink.old) (K.faults sink.new) }
    ensures counted { K.faults sink.old ≤ K.faults sink.new }
{
    for command in commands {
        play_command(host, command, line, sink)?;
    }
    Ok(())
}

/// Plays a script on a host with which nothing was done yet, and writes its report: a line for each reply as soon as it is known,
/// and the line that counts the bodies. The host is told by the table after all commands then. After an error the bytes written are a
/// first part of the report.
pub fn play<H: Host, K: Sink>(
    alloc: Global,
    script: &Script,
    host: &mut H,
    sink: &mut K,
) -> Result<(), PlayFault>
    requires told { H.shows host.old (empty_table script.now.world) }
    ensures report { OnOk result (Appended (K.contents sink.old) (K.contents sink.new) (serial_report script.now)) }
    ensures shown { OnOk result (H.shows host.new (table_below (empty_table script.now.world) script.now.lines)) }
    ensures part { OnErr result (AppendedPart (K.contents sink.old) (K.contents sink.new) (serial_report script.now)) }
    ensures fault { IsErrOf result PlayFault.Write → Rose (K.faults sink.old) (K.faults sink.new) }
    ensures counted { K.faults sink.old ≤ K.faults sink.new }
{
    let mut line = Vec::new(alloc);
    play_commands(host, script.lines.items(), &mut line, sink)?;
    play_end(host, &mut line, sink)
}
