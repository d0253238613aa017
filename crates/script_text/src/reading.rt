ghost use Rattle.std.specs.Prelude.{◌≡◌, [], ◌∷◌, ⊤, IfOk};
ghost use Rattle.script_text.specs.declared.script.Script.{Script};
ghost use Rattle.script_text.specs.Fault.{first_of, Reads, ReadsInMemory};
ghost use Rattle.script_text.specs.Lines.{lines_of, text_fault, command_of};
ghost use Rattle.script_text.specs.Above.{opening};
ghost use Rattle.script_text.specs.Line.{long_fault, line_fault, lines_fault, end_fault, script_fault};
ghost use Rattle.script_text.specs.Draft.{Adds, AddsAll, IsWhole, above_next, words_so_far};
ghost use Rattle.script_text.specs.Script.{ReadsOn, ReadsScript, IsFinished, IsScriptOf, fault_at};

use crate::code::{Code, LineError};
use crate::draft::Draft;
use crate::limits::MAX_LINES;
use crate::lines::{check_text, next_line, read_words};
use crate::script::{CommandList, Script, ScriptFault};
use std::alloc::{AllocError, Global};

impl From<AllocError> for ScriptFault {
    ghost use Rattle.std.specs.Prelude.{◌≡◌};
    ghost use Rattle.script_text.specs.declared.script.ScriptFault.TheVariants.{Memory};

    ghost from_gives = { λ _ e. e ≡ Memory };

    fn from(_e: AllocError) -> ScriptFault {
        ScriptFault::Memory
    }
}

/// The fault of a line with this number.
fn fault_at(line: u32, error: LineError) -> ScriptFault
    ensures { result ≡ fault_at line error }
{
    match error {
        LineError::Fault(code) => ScriptFault::At { line, code },
        LineError::Memory => ScriptFault::Memory,
    }
}

/// A line has to be no line too far down, and to have no byte that is not allowed.
fn check_line(number: u32, line: &[u8]) -> Result<(), Code>
    ensures { Reads result (first_of (long_fault number ∷ text_fault line.now ∷ [])) (λ _. ⊤) }
{
    if number > MAX_LINES {
        return Err(Code::Long);
    }
    check_text(line)
}

/// Adds the line with this number, by way of a list of its words.
fn add_line<'a>(
    alloc: Global,
    draft: &mut Draft,
    number: u32,
    line: &'a [u8],
    words: &mut Vec<&'a [u8]>,
) -> Result<(), LineError>
    ensures { ReadsInMemory result (line_fault number (above_next draft.old) line.now) (λ _. Adds (command_of line.now) draft.old draft.new) }
{
    check_line(number, line)?;
    read_words(line, words)?;
    draft.add(alloc, words.as_slice())
}

/// Adds the lines of a text, and answers the number of the line below them.
#[tactic(auto, using(crate::proofs::Parsing::one_more, crate::proofs::Parsing::stops, crate::proofs::Parsing::all_added))]
fn add_lines(alloc: Global, draft: &mut Draft, text: &[u8]) -> Result<u32, ScriptFault>
    ensures { ReadsOn result (lines_fault (above_next draft.old) 1 (lines_of text.now)) (AddsAll (lines_of text.now) draft.old draft.new) }
{
    let mut words = Vec::new(alloc);
    let mut rest = text;
    let mut number = 1;
    while let Some((line, below)) = next_line(rest) {
        if let Err(error) = add_line(alloc, draft, number, line, &mut words) {
            return Err(fault_at(number, error));
        }
        number += 1;
        rest = below;
    }
    Ok(number)
}

/// The script of a draft of all lines, where the line below them has this number.
fn finish(draft: Draft, number: u32) -> Result<Script, ScriptFault>
    requires { IsWhole draft number }
    ensures { ReadsScript result (end_fault (above_next draft) number) (IsFinished draft) }
{
    let Some(world) = draft.world else {
        return Err(ScriptFault::At {
            line: number,
            code: Code::World,
        });
    };
    Ok(Script {
        world,
        lines: CommandList::new(draft.lines),
        actors: 0,
        most_workers: 0,
    })
}

/// The script that bytes spell.
///
/// `At` comes exactly where they spell none. It names the first line that is no line of a script, and what is wrong
/// with it first; the code is `Later` for a command that is not built yet. `trace` says whether the script is to be
/// played with its entries told; no command that is built depends on it. Nothing is kept after a fault.
#[tactic(auto, using(crate::proofs::Parsing::from_first, crate::proofs::Parsing::whole))]
pub fn parse(alloc: Global, bytes: &[u8], trace: bool) -> Result<Script, ScriptFault>
    ensures exact { ReadsScript result (script_fault bytes.now) (IsScriptOf bytes.now) }
    ensures only { IfOk result (λ script. (other : Script) → IsScriptOf bytes.now other → other ≡ script) }
{
    let _no_command_is_refused_a_trace = trace;
    let mut draft = Draft::new(alloc);
    let number = add_lines(alloc, &mut draft, bytes)?;
    finish(draft, number)
}
