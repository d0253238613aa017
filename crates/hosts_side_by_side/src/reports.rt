//! The reports of a script, by both hosts.
ghost use Rattle.script_player.specs.Table.{empty_table};

use script_player::{Host, PlainPlayer, play};
use script_text::{Script, parse};
use std::alloc::Global;
use std::sync::Wait;
use world_host::WorldHost;
use world_io::MemSink;

/// No report is longer.
const MOST_BYTES: usize = 65_536;

/// The report of a script that is played on a host.
fn report<H: Host>(alloc: Global, script: &Script, host: &mut H) -> Option<MemSink>
    requires told { H.shows host.old (empty_table script.now.world) }
{
    let mut sink = MemSink::new(alloc, Vec::new(alloc), MOST_BYTES, MOST_BYTES).ok()?;
    play(alloc, script, host, &mut sink).ok()?;
    Some(sink)
}

/// The report of a script on the plain scene.
fn plain_report(alloc: Global, script: &Script) -> Option<MemSink> {
    let mut player = PlainPlayer::new(alloc, script.world).ok()?;
    report(alloc, script, &mut player)
}

/// Its report on a shared world.
fn world_report<R: Wait>(rt: &R, alloc: Global, script: &Script) -> Option<MemSink> {
    let mut host = WorldHost::open(rt, alloc, script.world).ok()?;
    report(alloc, script, &mut host)
}

/// The reports of a script that a text spells: on the plain scene, and on a shared world.
pub(crate) fn both_reports<R: Wait>(
    rt: &R,
    alloc: Global,
    text: &str,
) -> Option<(MemSink, MemSink)> {
    let script = parse(alloc, text.as_bytes(), false).ok()?;
    let plain = plain_report(alloc, &script)?;
    let shared = world_report(rt, alloc, &script)?;
    Some((plain, shared))
}
