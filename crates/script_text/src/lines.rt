ghost use Rattle.std.specs.Prelude.{◌≡◌, ◌==◌, ◌<◌, ◌∷◌, [], ◌++◌, All, IfOk, MatchOption, length, false, ⊤, if◌then◌else◌};
ghost use Rattle.std.specs.List.{list_all};
ghost use Rattle.script_text.specs.Fault.{Reads};
ghost use Rattle.script_text.specs.Lines.{lines_of, without_return, is_text_byte, text_fault, words_of, begins_comment, command_in, command_of, some_word, texts};

use crate::code::Code;
use std::alloc::AllocError;

/// What stands before the first such byte, and what stands behind it.
fn cut_at(bytes: &[u8], mark: u8) -> Option<(&[u8], &[u8])>
    ensures { MatchOption result
        (All (λ b. (b == mark) ≡ false) bytes.now)
        (λ p. All (λ b. (b == mark) ≡ false) p.0.now × (bytes.now ≡ p.0.now ++ mark ∷ p.1.now)) }
{
    let at = bytes.iter().position(|b| *b == mark)?;
    Some((&bytes[..at], &bytes[at + 1..]))
}

/// What stands before a newline, without a carriage return at its end.
fn without_return(line: &[u8]) -> &[u8]
    ensures { result.now ≡ without_return line.now }
{
    if line.is_empty() {
        return line;
    }
    let last = line.len() - 1;
    if line[last] == b'\r' {
        &line[..last]
    } else {
        line
    }
}

/// The first line of a text, and the text below it; `None` where there is no line.
#[tactic(auto, using(crate::proofs::Cuts::lines_cut, crate::proofs::Cuts::lines_last))]
pub fn next_line(bytes: &[u8]) -> Option<(&[u8], &[u8])>
    ensures lines { MatchOption result (lines_of bytes.now ≡ []) (λ p. lines_of bytes.now ≡ p.0.now ∷ lines_of p.1.now) }
    ensures shorter { MatchOption result (bytes.now ≡ []) (λ p. length p.1.now < length bytes.now) }
{
    if bytes.is_empty() {
        return None;
    }
    if let Some((line, below)) = cut_at(bytes, b'\n') {
        return Some((without_return(line), below));
    }
    Some((bytes, &[]))
}

/// Whether a line has no other bytes than those that are allowed.
fn is_text(line: &[u8]) -> bool
    ensures { result ≡ list_all is_text_byte line.now }
{
    line.iter().all(|b| b' ' <= *b && *b <= b'~')
}

/// A line that has to have no other bytes than those that are allowed.
pub fn check_text(line: &[u8]) -> Result<(), Code>
    ensures { Reads result (text_fault line.now) (λ _. ⊤) }
{
    if is_text(line) {
        Ok(())
    } else {
        Err(Code::Text)
    }
}

/// Adds a word to a list, where there is one.
fn push_word<'a>(words: &mut Vec<&'a [u8]>, word: &'a [u8]) -> Result<(), AllocError>
    ensures { IfOk result (λ _. texts words.new.items ≡ texts words.old.items ++ some_word word.now) }
{
    if !word.is_empty() {
        words.push(word)?;
    }
    Ok(())
}

/// Writes the words of a line into a list, in the place of what it holds.
fn split_words<'a>(line: &'a [u8], words: &mut Vec<&'a [u8]>) -> Result<(), AllocError>
    ensures { IfOk result (λ _. texts words.new.items ≡ words_of line.now) }
{
    words.clear();
    let mut rest = line;
    while let Some((word, after)) = cut_at(rest, b' ') {
        push_word(words, word)?;
        rest = after;
    }
    push_word(words, rest)?;
    Ok(())
}

/// Whether the first of the words begins a comment.
fn is_comment(words: &[&[u8]]) -> bool
    ensures { command_in (texts words.now) ≡ (if result then [] else texts words.now) }
{
    match words.first() {
        Some([b'#', ..]) => true,
        _ => false,
    }
}

/// Writes the words of a line's command into a list, in the place of what it holds.
pub fn read_words<'a>(line: &'a [u8], words: &mut Vec<&'a [u8]>) -> Result<(), AllocError>
    ensures { IfOk result (λ _. texts words.new.items ≡ command_of line.now) }
{
    split_words(line, words)?;
    if is_comment(words.as_slice()) {
        words.clear();
    }
    Ok(())
}
