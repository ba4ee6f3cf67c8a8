// The words of a line of a listing.
ghost use Rattle.std.specs.Prelude.{◌≡◌, option_map};
ghost use Rattle.listing.specs.Words.{dotted, piece_of, seen_word};

use text::{Mark, cut};

// A word is a path, by what stands past its dot, or a keyword with its text, which is what stands past its first equals sign.
#[derive(Clone, Copy, Debug, PartialEq, Eq)]
pub enum Word<'a> {
    Path(&'a [u8]),
    Keyword(&'a [u8], Option<&'a [u8]>),
}

// A word, and its place among the words of its line, from 0.
#[derive(Clone, Copy, Debug, PartialEq, Eq)]
pub struct Placed<'a> {
    pub place: usize,
    pub word: Word<'a>,
}

// What stands past the dot of a path: nothing, or a slash and more.
fn past_dot<'a>(w: &'a [u8]) -> Option<&'a [u8]>
    ensures { option_map (λ x. x.now) result ≡ dotted w.now }
{
    match w {
        [b'.', rest @ ..] if matches!(rest, [] | [b'/', ..]) => Some(rest),
        _ => None,
    }
}

pub fn word_of<'a>(w: &'a [u8]) -> Word<'a>
    ensures { seen_word result ≡ piece_of w.now }
{
    match past_dot(w) {
        Some(path) => Word::Path(path),
        None => {
            let (key, text) = cut(w, Mark::Equals);
            Word::Keyword(key, text)
        }
    }
}
