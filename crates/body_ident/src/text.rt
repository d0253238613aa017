ghost use Rattle.std.specs.Prelude.{◌≡◌, ◌≢◌, ◌==◌, ℕ, ◌+◌, ◌<◌, ◌≤◌, ◌↔◌, ◌++◌, length, decimal, drop, position, IsTrue, IfSome, IfNone, OnOk, OnErr};
ghost use Rattle.body_ident.specs.Id.{Id};
ghost use Rattle.body_ident.specs.Text.{id_text, IsPlain};
ghost use Rattle.body_ident.specs.Word.{IsId};
ghost use Rattle.body_ident.specs.declared.text.TheConstants.{LONGEST};

use crate::body_id::BodyId;
use std::alloc::AllocError;

/// The longest text of an id: seven digits, a colon and three digits.
const LONGEST: usize = 11;

impl BodyId {
    /// Appends the text of the id, `index:sequence` in decimal without leading zeros. After want of memory the
    /// list is as before.
    pub fn write_text(self, out: &mut Vec<u8>) -> Result<(), AllocError>
        ensures ok { OnOk result (out.new.items ≡ out.old.items ++ id_text self) }
        ensures err { OnErr result (out.new.items ≡ out.old.items) }
    {
        let mut text = [0u8; LONGEST];
        let start = lay_out(self, &mut text);
        out.extend_from_slice(&text[start..])
    }

    /// The id with this text, and `None` where it is the text of no id.
    #[tactic(auto, using(crate::proofs::TextLemmas::parts_of_text))]
    pub fn read_text(bytes: &[u8]) -> Option<BodyId>
        ensures some { IfSome result (λ id. IsId id × (id_text id ≡ bytes.now)) }
        ensures none { IfNone result ((id : Id) → IsId id → id_text id ≢ bytes.now) }
    {
        let colon = first_colon(bytes)?;
        let index = read_number(&bytes[..colon], BodyId::INDEXES)?;
        let seq = read_number(&bytes[colon + 1..], 256)?;
        Some(BodyId::new(index, seq as u8))
    }
}

/// Puts the text of an id at the end of a buffer, and answers where it begins.
#[tactic(auto, using(crate::proofs::NumberLemmas::short_numbers))]
fn lay_out(id: BodyId, text: &mut [u8]) -> usize
    requires { length text.old ≡ LONGEST }
    ensures bound { result ≤ LONGEST }
    ensures text { drop result text.new ≡ id_text id }
{
    let colon = put_digits(text, LONGEST, u32::from(id.seq())) - 1;
    text[colon] = b':';
    put_digits(text, colon, id.index())
}

/// The place of the first colon.
fn first_colon(bytes: &[u8]) -> Option<usize>
    ensures { result ≡ position (λ b. b == 58) bytes.now }
{
    bytes.iter().position(|byte| *byte == b':')
}

/// Puts the digits of a number in front of the place `end`, and answers where they begin.
#[tactic(auto, using(std::proofs::lemmas::Grind::common_steps, std::proofs::lemmas::Fmt::decimal_step, std::proofs::lemmas::Fmt::decimal_digit, std::proofs::lemmas::Fmt::decimal_nonempty))]
fn put_digits(text: &mut [u8], end: usize, number: u32) -> usize
    requires room { length (decimal number) ≤ end }
    requires within { end ≤ length text.old }
    ensures start { result + length (decimal number) ≡ end }
    ensures digits { drop result text.new ≡ decimal number ++ drop end text.old }
{
    let mut at = end - 1;
    let mut rest = number;
    while rest >= 10 {
        text[at] = b'0' + (rest % 10) as u8;
        rest /= 10;
        at -= 1;
    }
    text[at] = b'0' + rest as u8;
    at
}

/// Whether no plus stands in front, and no zero in front of other digits.
fn is_plain(bytes: &[u8]) -> bool
    ensures { IsTrue result ↔ IsPlain bytes.now }
{
    let first = bytes.first().copied().unwrap_or(0);
    first != b'+' && (first != b'0' || bytes.len() == 1)
}

/// The number below `end` with this text in decimal without leading zeros.
#[tactic(auto, using(crate::proofs::NumberLemmas::numbers))]
fn read_number(bytes: &[u8], end: u32) -> Option<u32>
    ensures some { IfSome result (λ n. (n < end) × (decimal n ≡ bytes.now)) }
    ensures none { IfNone result ((n : ℕ) → n < end → decimal n ≢ bytes.now) }
{
    if !is_plain(bytes) {
        return None;
    }
    let Ok(text) = str::from_utf8(bytes) else {
        return None;
    };
    let number = text.parse::<u32>().ok()?;
    (number < end).then_some(number)
}

/// Two ids with the same text are the same id.
#[tactic(auto, using(crate::proofs::TextLemmas::same_id_of_text))]
pub fn same_text(a: BodyId, b: BodyId)
    ensures { id_text a ≡ id_text b → a ≡ b }
{}
