//! Hosts, paths and the names of sessions.

ghost use Rattle.std.specs.Prelude.{◌≡◌, ◌<◌, ◌≤◌, ◌↔◌, IsTrue, length, get_or};
ghost use Rattle.std.specs.List.{list_all};
ghost use Rattle.std.specs.Str.{chars};
ghost use Rattle.bye_words.specs.Kinds as spec;
ghost use Rattle.bye_words.specs.Kinds.{IsRun, IsPath};

use bye_terms::Text;
use bye_terms::characters::is_letter_or_digit;

fn is_host_char(c: char) -> bool
    ensures { result ≡ spec.is_host_char c }
{
    is_letter_or_digit(c) || c == '-' || c == '.'
}

fn is_path_char(c: char) -> bool
    ensures { result ≡ spec.is_path_char c }
{
    matches!(c, '!'..='~')
}

fn is_session_char(c: char) -> bool
    ensures { result ≡ spec.is_session_char c }
{
    is_host_char(c) || c == '_'
}

/// Whether there is a byte, and there are at most so many.
fn has_length(text: &str, most: usize) -> bool
    ensures { IsTrue result ↔ (0 < length text.now) × (length text.now ≤ most) }
{
    !text.is_empty() && text.len() <= most
}

/// Whether the first byte is a slash.
fn has_slash(text: &str) -> bool
    ensures { IsTrue result ↔ (get_or text.now 0 0 ≡ 47) }
{
    let bytes = text.as_bytes();
    !bytes.is_empty() && bytes[0] == b'/'
}

fn are_host_chars(text: &str) -> bool
    ensures { result ≡ list_all spec.is_host_char (chars text.now) }
{
    text.chars().all(is_host_char)
}

fn are_path_chars(text: &str) -> bool
    ensures { result ≡ list_all spec.is_path_char (chars text.now) }
{
    text.chars().all(is_path_char)
}

fn are_session_chars(text: &str) -> bool
    ensures { result ≡ list_all spec.is_session_char (chars text.now) }
{
    text.chars().all(is_session_char)
}

/// Whether the word is the name of a host.
pub fn is_host(word: &Text) -> bool
    ensures { IsTrue result ↔ IsRun spec.is_host_char 255 word.now }
{
    let text = word.as_str();
    are_host_chars(text) && has_length(text, 255)
}

/// Whether the word is the name of a session.
pub fn is_session(word: &Text) -> bool
    ensures { IsTrue result ↔ IsRun spec.is_session_char 64 word.now }
{
    let text = word.as_str();
    are_session_chars(text) && has_length(text, 64)
}

fn is_path_run(word: &Text) -> bool
    ensures { IsTrue result ↔ IsRun spec.is_path_char 4096 word.now }
{
    let text = word.as_str();
    are_path_chars(text) && has_length(text, 4096)
}

/// Whether the word is a path.
pub fn is_path(word: &Text) -> bool
    ensures { IsTrue result ↔ IsPath word.now }
{
    is_path_run(word) && has_slash(word.as_str())
}
