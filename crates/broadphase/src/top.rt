//! The top call.
ghost use Rattle.std.specs.Prelude.{◌≡◌, ◌≤◌, ◌↔◌, ◌+◌, ◌⊎◌, ℕ, Option, List, Some, None, OnOk, OnErr, IfOk, IfErr, IsErrOf, length, codes};
ghost use Rattle.world_io.specs.Bytes.{Appended, AppendedPart};
ghost use Rattle.world_io.specs.Faults.{Rose};
ghost use Rattle.script_text.specs.Line.{script_fault};
ghost use Rattle.broadphase.specs.Reading.{GaveCount, GaveAtMost, ScriptRead};
ghost use Rattle.broadphase.specs.Form.{Asks, AskNothing};
ghost use Rattle.broadphase.specs.Ended.{Answered, AnsweredPart, Refused, RefusedPart, WantedMemory, CountsReads, Ends, fault_text, code_text};
ghost use Rattle.broadphase.specs.declared.reading.TheConstants.{MAX_BYTES};

use crate::form::{Form, form_of};
use crate::playing::play;
use crate::reading::{ParseEnd, run_parse};
use crate::room::Room;
use crate::status::Status;
use crate::streams::write_all;
use itoa::Buffer;
use script_player::PlayFault;
use script_text::{Code, Script};
use std::alloc::{AllocError, Global};
use std::sync::Wait;
use world_io::{Gate, Sink, Source};

/// The word of a code.
fn code_word(code: Code) -> &'static [u8]
    ensures { result.now ≡ code_text code }
{
    match code {
        Code::Long => b"long",
        Code::Text => b"text",
        Code::Word => b"word",
        Code::World => b"world",
        Code::Block => b"block",
        Code::Trace => b"trace",
        Code::Count => b"count",
        Code::Name => b"name",
        Code::Number => b"number",
        Code::Range => b"range",
        Code::Actor => b"actor",
        Code::Later => b"later",
    }
}

/// The line that tells of a bad line.
fn fault_line(alloc: Global, line: u32, code: Code) -> Result<Vec<u8>, AllocError>
    ensures { IfOk result (λ text. text.items ≡ fault_text line code) }
{
    let mut buffer = Buffer::new();
    let mut text = Vec::from_slice(alloc, b"line ")?;
    text.extend_from_slice(buffer.format(line).as_bytes())?;
    text.extend_from_slice(b": ")?;
    text.extend_from_slice(code_word(code))?;
    text.extend_from_slice(b"\n")?;
    Ok(text)
}

/// Writes the line that tells of a bad line.
#[tactic(auto, using(script_player::proofs::Writing::nothing_written))]
fn refuse<K: Sink>(alloc: Global, line: u32, code: Code, sink: &mut K) -> Result<(), PlayFault>
    ensures ok { OnOk result (Appended (K.contents sink.old) (K.contents sink.new) (fault_text line code)) }
    ensures part { OnErr result (AppendedPart (K.contents sink.old) (K.contents sink.new) (fault_text line code)) }
    ensures fault { IsErrOf result PlayFault.Write → Rose (K.faults sink.old) (K.faults sink.new) }
    ensures memory { IsErrOf result PlayFault.Memory → K.contents sink.new ≡ K.contents sink.old }
    ensures counted { K.faults sink.old ≤ K.faults sink.new }
{
    let text = fault_line(alloc, line, code)?;
    write_all(sink, text.as_slice())?;
    Ok(())
}

/// The script that a source gives; where it gives none, how the run ends, with the line of a bad script written.
fn script_of<S: Source, K: Sink>(
    alloc: Global,
    source: &mut S,
    sink: &mut K,
) -> Result<Script, Status>
    ensures script { IfOk result (λ script. ScriptRead (S.left source.old) (S.left source.new) script × (K.contents sink.new ≡ K.contents sink.old)) }
    ensures ends { (form : Form) → IfErr result (λ status. Ends form status (S.left source.old) (S.left source.new) (K.contents sink.old) (K.contents sink.new)
        (S.faults source.old) (S.faults source.new) (K.faults sink.old) (K.faults sink.new)) }
    ensures reads { IfErr result (λ status. CountsReads status (S.faults source.old) (S.faults source.new)) }
    ensures none { IfOk result (λ _. S.faults source.new ≡ S.faults source.old) }
    ensures counted { (S.faults source.old ≤ S.faults source.new) × (K.faults sink.old ≤ K.faults sink.new) }
{
    match run_parse(alloc, source, false) {
        Ok(script) => Ok(script),
        Err(ParseEnd::BadScript { line, code }) => match refuse(alloc, line, code, sink) {
            Ok(()) => Err(Status::BadScript),
            Err(PlayFault::Write) => Err(Status::WriteFault),
            Err(PlayFault::Memory) => Err(Status::Memory),
        },
        Err(ParseEnd::ReadFault) => Err(Status::ReadFault),
        Err(ParseEnd::TooLong) => Err(Status::TooLong),
        Err(ParseEnd::Memory) => Err(Status::Memory),
    }
}

/// Reads a script and writes `ok`.
fn check_script<S: Source, K: Sink>(alloc: Global, source: &mut S, sink: &mut K) -> Status
    ensures ends { Ends Form.Check result (S.left source.old) (S.left source.new) (K.contents sink.old) (K.contents sink.new)
        (S.faults source.old) (S.faults source.new) (K.faults sink.old) (K.faults sink.new) }
    ensures reads { CountsReads result (S.faults source.old) (S.faults source.new) }
    ensures counted { (S.faults source.old ≤ S.faults source.new) × (K.faults sink.old ≤ K.faults sink.new) }
{
    match script_of(alloc, source, sink) {
        Ok(_script) => match write_all(sink, b"ok\n") {
            Ok(()) => Status::Done,
            Err(_) => Status::WriteFault,
        },
        Err(status) => status,
    }
}

/// Reads a script to its end and writes `ok`, or the line that tells of the first bad line.
///
/// Reading stops at the end of the source or at byte 8,388,609. It never ends with `Usage`. Where it ends with
/// `ReadFault`, `Memory` or `TooLong`, nothing is written.
pub fn run_check<S: Source, K: Sink>(alloc: Global, source: &mut S, sink: &mut K) -> Status
    // What each status tells of the bytes that were read and written.
    ensures ends { Ends Form.Check result (S.left source.old) (S.left source.new) (K.contents sink.old) (K.contents sink.new)
        (S.faults source.old) (S.faults source.new) (K.faults sink.old) (K.faults sink.new) }

    // However it ends, reading stops at byte 8,388,609 at the latest, and at the first read that fails; no count falls.
    ensures stops { GaveAtMost (S.left source.old) (S.left source.new) (MAX_BYTES + 1) }
    ensures reads { CountsReads result (S.faults source.old) (S.faults source.new) }
    ensures counted { (S.faults source.old ≤ S.faults source.new) × (K.faults sink.old ≤ K.faults sink.new) }

    // Told bytes that are not too many are accepted or refused, unless a fault is counted or memory is wanting.
    ensures accepts { (bytes : List ℕ) → S.left source.old ≡ Some bytes → length bytes ≤ MAX_BYTES
        → ¬ Rose (S.faults source.old) (S.faults source.new) → ¬ Rose (K.faults sink.old) (K.faults sink.new)
        → script_fault bytes ≡ None → (result ≡ Status.Done) ⊎ (result ≡ Status.Memory) }
    ensures refuses { (bytes : List ℕ) → S.left source.old ≡ Some bytes → length bytes ≤ MAX_BYTES
        → ¬ Rose (S.faults source.old) (S.faults source.new) → ¬ Rose (K.faults sink.old) (K.faults sink.new)
        → ¬ (script_fault bytes ≡ None) → (result ≡ Status.BadScript) ⊎ (result ≡ Status.Memory) }
{
    check_script(alloc, source, sink)
}

/// Reads a script, plays it on a shared world and writes its report.
fn play_script<R: Wait, S: Source, K: Sink>(
    rt: &R,
    alloc: Global,
    source: &mut S,
    sink: &mut K,
) -> Status
    ensures ends { Ends Form.Play result (S.left source.old) (S.left source.new) (K.contents sink.old) (K.contents sink.new)
        (S.faults source.old) (S.faults source.new) (K.faults sink.old) (K.faults sink.new) }
    ensures reads { CountsReads result (S.faults source.old) (S.faults source.new) }
    ensures counted { (S.faults source.old ≤ S.faults source.new) × (K.faults sink.old ≤ K.faults sink.new) }
{
    match script_of(alloc, source, sink) {
        Ok(script) => match play(rt, alloc, &script, sink) {
            Ok(()) => Status::Done,
            Err(PlayFault::Write) => Status::WriteFault,
            Err(PlayFault::Memory) => Status::Memory,
        },
        Err(status) => status,
    }
}

/// Carries out a command of the program.
fn run_form<R: Wait, S: Source, K: Sink>(
    rt: &R,
    alloc: Global,
    form: Form,
    source: &mut S,
    sink: &mut K,
) -> Status
    ensures ends { Ends form result (S.left source.old) (S.left source.new) (K.contents sink.old) (K.contents sink.new)
        (S.faults source.old) (S.faults source.new) (K.faults sink.old) (K.faults sink.new) }
    ensures reads { CountsReads result (S.faults source.old) (S.faults source.new) }
    ensures counted { (S.faults source.old ≤ S.faults source.new) × (K.faults sink.old ≤ K.faults sink.new) }
{
    match form {
        Form::Play => play_script(rt, alloc, source, sink),
        Form::Check => run_check(alloc, source, sink),
    }
}

/// Runs the program on the words of its command line, without its own name.
///
/// `play` reads a script from the source, opens a shared world of its sizes, plays it there and writes the report to the
/// sink, a line for each reply as soon as it is known. The report is the one that the plain scene prints. `check` reads a
/// script and writes `ok`. Reading stops at the end of the source or at byte 8,388,609. Every other words are `Usage`.
/// The gate is called by workers alone, of which there are none yet, and the world is not left in the room yet.
pub fn run<R: Wait, S: Source, K: Sink, G: Gate>(
    rt: &R,
    alloc: Global,
    words: &[String],
    source: &mut S,
    sink: &mut K,
    _gate: &G,
    _room: &mut Room,
) -> Status
    // Usage comes exactly where the words ask for nothing; nothing is read and nothing is written then.
    ensures usage { (result ≡ Status.Usage) ↔ AskNothing words.now }
    ensures untouched { result ≡ Status.Usage → (S.left source.new ≡ S.left source.old) × (K.contents sink.new ≡ K.contents sink.old) }

    // However it ends, reading stops at byte 8,388,609 at the latest, and at the first read that fails; no count falls.
    ensures stops { GaveAtMost (S.left source.old) (S.left source.new) (MAX_BYTES + 1) }
    ensures reads { CountsReads result (S.faults source.old) (S.faults source.new) }
    ensures counted { (S.faults source.old ≤ S.faults source.new) × (K.faults sink.old ≤ K.faults sink.new) }

    // What each other status tells of the bytes that were read and written.
    ensures done { (form : Form) → Asks words.now form → result ≡ Status.Done
        → Answered form (S.left source.old) (S.left source.new) (K.contents sink.old) (K.contents sink.new) }
    ensures bad_script { result ≡ Status.BadScript → Refused (S.left source.old) (S.left source.new) (K.contents sink.old) (K.contents sink.new) }
    ensures too_long { result ≡ Status.TooLong → GaveCount (S.left source.old) (S.left source.new) (MAX_BYTES + 1) × (K.contents sink.new ≡ K.contents sink.old) }
    ensures read_fault { result ≡ Status.ReadFault → Rose (S.faults source.old) (S.faults source.new)
        × GaveAtMost (S.left source.old) (S.left source.new) MAX_BYTES × (K.contents sink.new ≡ K.contents sink.old) }
    ensures write_fault { (form : Form) → Asks words.now form → result ≡ Status.WriteFault → Rose (K.faults sink.old) (K.faults sink.new)
        × (AnsweredPart form (S.left source.old) (S.left source.new) (K.contents sink.old) (K.contents sink.new)
        ⊎ RefusedPart (S.left source.old) (S.left source.new) (K.contents sink.old) (K.contents sink.new)) }
    ensures memory { (form : Form) → Asks words.now form → result ≡ Status.Memory → GaveAtMost (S.left source.old) (S.left source.new) MAX_BYTES
        × WantedMemory form (S.left source.old) (S.left source.new) (K.contents sink.old) (K.contents sink.new) }

    // Told bytes that are not too many are answered or refused, unless a fault is counted or memory is wanting.
    ensures answers { (form : Form) (bytes : List ℕ) → Asks words.now form → S.left source.old ≡ Some bytes → length bytes ≤ MAX_BYTES
        → ¬ Rose (S.faults source.old) (S.faults source.new) → ¬ Rose (K.faults sink.old) (K.faults sink.new)
        → script_fault bytes ≡ None → (result ≡ Status.Done) ⊎ (result ≡ Status.Memory) }
    ensures refuses { (form : Form) (bytes : List ℕ) → Asks words.now form → S.left source.old ≡ Some bytes → length bytes ≤ MAX_BYTES
        → ¬ Rose (S.faults source.old) (S.faults source.new) → ¬ Rose (K.faults sink.old) (K.faults sink.new)
        → ¬ (script_fault bytes ≡ None) → (result ≡ Status.BadScript) ⊎ (result ≡ Status.Memory) }
{
    match form_of(words) {
        None => Status::Usage,
        Some(form) => run_form(rt, alloc, form, source, sink),
    }
}
