ghost use Rattle.std.specs.Prelude.{◌≡◌, ◌≤◌, ◌<◌, ◌^◌, ◌-◌, ◌≤ℤ◌, ◌<ℤ◌, ℤ, min, not, pos, negsuc, IsTrue};
ghost use Rattle.std.specs.Fmt.{signed_decimal};
ghost use Rattle.std.specs.List.{list_all};
ghost use Rattle.std.specs.Str.Parse.{digits_value};
ghost use Rattle.script_text.specs.Fault.{Reads};
ghost use Rattle.script_text.specs.Number.{Spells, SpellsNatural, cut_off, is_digit, is_natural, is_number, number_of, number_fault};

use crate::code::Code;

/// A bound above every number that a script may have.
const FAR: u64 = 1 << 40;

/// Whether all bytes are digits.
fn are_digits(bytes: &[u8]) -> bool
    ensures { result ≡ list_all is_digit bytes.now }
{
    bytes.iter().all(|b| b'0' <= *b && *b <= b'9')
}

/// The number that digits stand for, or `FAR` where it is greater.
fn value_of_digits(digits: &[u8]) -> u64
    requires { IsTrue (list_all is_digit digits.now) }
    ensures { result ≡ min (digits_value 10 digits.now) FAR }
{
    let mut value = 0;
    for digit in digits {
        value = (value * 10 + u64::from(*digit - b'0')).min(FAR);
    }
    value
}

/// Whether a word is the digit 0, or digits of which the first is not 0.
fn is_natural(word: &[u8]) -> bool
    ensures { result ≡ is_natural word.now }
{
    match word {
        [] => false,
        [b'0', rest @ ..] => rest.is_empty(),
        _ => are_digits(word),
    }
}

/// Whether a word is a number: it has no leading zero, and a minus only before a number above 0.
fn is_number(word: &[u8]) -> bool
    ensures { result ≡ is_number word.now }
{
    match word {
        [b'-', digits @ ..] => is_natural(digits) && digits != b"0".as_slice(),
        _ => is_natural(word),
    }
}

/// The number that a word stands for, cut off at `FAR` on both sides.
fn value_of(word: &[u8]) -> i64
    requires { IsTrue (is_number word.now) }
    ensures { result ≡ cut_off FAR (number_of word.now) }
{
    match word {
        [b'-', digits @ ..] => -(value_of_digits(digits) as i64),
        _ => value_of_digits(word) as i64,
    }
}

/// The number that a word spells, where it is one from `lo` to `hi`.
pub fn read_number(word: &[u8], lo: i64, hi: i64) -> Result<i64, Code>
    requires low { negsuc (2 ^ 40 - 1) <ℤ lo }
    requires order { lo ≤ℤ hi }
    requires high { hi <ℤ pos (2 ^ 40) }
    ensures { Reads result (number_fault lo hi word.now) (Spells word.now lo hi) }
{
    if !is_number(word) {
        return Err(Code::Number);
    }
    let number = value_of(word);
    if number < lo {
        return Err(Code::Range);
    }
    if hi < number {
        return Err(Code::Range);
    }
    Ok(number)
}

/// The number without a minus that a word spells, where it is one from `lo` to `hi`.
pub fn read_natural(word: &[u8], lo: u32, hi: u32) -> Result<u32, Code>
    requires { lo ≤ hi }
    ensures { Reads result (number_fault (pos lo) (pos hi) word.now) (SpellsNatural word.now lo hi) }
{
    let number = read_number(word, i64::from(lo), i64::from(hi))?;
    Ok(number as u32)
}
