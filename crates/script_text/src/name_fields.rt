ghost use Rattle.std.specs.Prelude.{◌≡◌, map, take, IfOk, ⊤};
ghost use Rattle.std.specs.List.{list_all};
ghost use Rattle.script_text.specs.Name.{is_name_byte, is_name, is_among, name_fault, new_name_fault, known_name_fault, known_names_fault};
ghost use Rattle.script_text.specs.Lines.{texts};
ghost use Rattle.script_text.specs.Fault.{Reads, ReadsInMemory};

use crate::code::{Code, LineError};
use crate::names::Names;
use crate::text::{Text, TextList};
use std::alloc::{AllocError, Global};

/// Whether all bytes are small letters, digits and low lines.
fn are_name_bytes(bytes: &[u8]) -> bool
    ensures { result ≡ list_all is_name_byte bytes.now }
{
    bytes.iter().all(|b| (b'a' <= *b && *b <= b'z') || (b'0' <= *b && *b <= b'9') || *b == b'_')
}

/// Whether a word is a name.
fn is_name(word: &[u8]) -> bool
    ensures { result ≡ is_name word.now }
{
    1 <= word.len() && word.len() <= 32 && are_name_bytes(word)
}

/// A word that has to be a name.
pub fn check_name(word: &[u8]) -> Result<(), Code>
    ensures { Reads result (name_fault word.now) (λ _. ⊤) }
{
    if is_name(word) {
        Ok(())
    } else {
        Err(Code::Name)
    }
}

/// A word that has to be a name which was not created above.
pub fn check_new_name(names: &Names, word: &[u8]) -> Result<(), Code>
    ensures { Reads result (new_name_fault names.now word.now) (λ _. ⊤) }
{
    if is_name(word) && !names.contains(word) {
        Ok(())
    } else {
        Err(Code::Name)
    }
}

/// A word that has to be a name which was created above.
pub fn check_known_name(names: &Names, word: &[u8]) -> Result<(), Code>
    ensures { Reads result (known_name_fault names.now word.now) (λ _. ⊤) }
{
    if names.contains(word) {
        Ok(())
    } else {
        Err(Code::Name)
    }
}

/// Whether all words are names that were created above.
#[tactic(auto, using(crate::proofs::Texts::all_more, crate::proofs::Texts::all_fails))]
fn are_known(names: &Names, words: &[&[u8]]) -> bool
    ensures { result ≡ list_all (is_among names.now) (texts words.now) }
{
    for word in words {
        if !names.contains(word) {
            return false;
        }
    }
    true
}

/// A list of texts with the bytes of these words.
fn copy_texts(alloc: Global, words: &[&[u8]]) -> Result<TextList, AllocError>
    ensures { IfOk result (λ list. list ≡ texts words.now) }
{
    let mut list = Vec::new(alloc);
    for word in words {
        list.push(Text::from_slice(alloc, word)?)?;
    }
    Ok(TextList::new(list))
}

/// Words that all have to be names which were created above.
pub fn read_known_names(
    alloc: Global,
    names: &Names,
    words: &[&[u8]],
) -> Result<TextList, LineError>
    ensures { ReadsInMemory result (known_names_fault names.now (texts words.now)) (λ list. list ≡ texts words.now) }
{
    if !are_known(names, words) {
        return Err(LineError::Fault(Code::Name));
    }
    Ok(copy_texts(alloc, words)?)
}
