//! What a program says of itself: its words, and its version.
#![tactic(auto)]

ghost use Rattle.std.specs.Prelude.{◌≡◌, map, string_bytes};
ghost use Rattle.pass_help.specs.Asking.{asked_in, asked_by};

/// The version of all programs, whose words and formats belong together.
pub const VERSION: &str = "1.0";

/// What a program is asked of itself.
#[derive(Clone, Copy, Drop)]
pub enum Request {
    /// Its words, one line each.
    Help,
    Version,
}

/// What the words ask a program of itself: `--help` or `--version`, with no other word.
pub fn asked(words: &[String]) -> Option<Request>
    ensures { result ≡ asked_in (map string_bytes words.now) }
{
    match words {
        [] => None,
        [word] => word_asked(word.as_bytes()),
        [_, _, ..] => None,
    }
}

fn word_asked(word: &[u8]) -> Option<Request>
    ensures { result ≡ asked_by word.now }
{
    if word == b"--help".as_slice() {
        return Some(Request::Help);
    }
    if word == b"--version".as_slice() {
        return Some(Request::Version);
    }
    None
}
