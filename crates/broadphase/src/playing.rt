//! Plays a script and writes its report.
ghost use Rattle.std.specs.Prelude.{◌≤◌, OnOk, OnErr, IsErrOf};
ghost use Rattle.world_io.specs.Bytes.{Appended, AppendedPart};
ghost use Rattle.world_io.specs.Faults.{Rose};
ghost use Rattle.script_player.specs.Report.{serial_report};
ghost use Rattle.script_player.specs.declared.playing.PlayFault.{PlayFault};
ghost use Rattle.script_player.specs.declared.playing.PlayFault.TheVariants as play_fault;

use script_player::PlayFault;
use script_text::Script;
use std::alloc::Global;
use std::sync::Wait;
use world_host::WorldHost;
use world_io::Sink;

/// Plays a script on a shared world that is opened for it, and writes its report. After an error the bytes written are a first part of the report.
#[tactic(auto, using(script_player::proofs::Writing::nothing_written))]
pub fn play<R: Wait, K: Sink>(
    rt: &R,
    alloc: Global,
    script: &Script,
    sink: &mut K,
) -> Result<(), PlayFault>
    ensures report { OnOk result (Appended (K.contents sink.old) (K.contents sink.new) (serial_report script.now)) }
    ensures part { OnErr result (AppendedPart (K.contents sink.old) (K.contents sink.new) (serial_report script.now)) }
    ensures fault { IsErrOf result PlayFault.Write → Rose (K.faults sink.old) (K.faults sink.new) }
    ensures counted { K.faults sink.old ≤ K.faults sink.new }
{
    let Ok(mut host) = WorldHost::open(rt, alloc, script.world) else {
        return Err(PlayFault::Memory);
    };
    script_player::play(alloc, script, &mut host, sink)
}
