//! What the words of the command line ask for.
ghost use Rattle.std.specs.Prelude.{◌≡◌, map, string_bytes};
ghost use Rattle.broadphase.specs.Form.{form_of, form_named};

/// A command of the program.
#[derive(Clone, Copy, Debug, PartialEq, Eq)]
pub enum Form {
    /// `play`: read a script, play it and write its report.
    Play,
    /// `check`: read a script and write `ok`.
    Check,
}

/// The command that one word names.
fn form_named(word: &[u8]) -> Option<Form>
    ensures { result ≡ form_named word.now }
{
    if word == b"play".as_slice() {
        Some(Form::Play)
    } else if word == b"check".as_slice() {
        Some(Form::Check)
    } else {
        None
    }
}

/// The command that the words of a command line ask for, without the program's own name, and `None` where they ask
/// for none.
pub(crate) fn form_of(words: &[String]) -> Option<Form>
    ensures { result ≡ form_of (map string_bytes words.now) }
{
    match words {
        [word] => form_named(word.as_bytes()),
        _ => None,
    }
}
