// A line of a listing, as the row that it lists.
ghost use Rattle.std.specs.Prelude.{◌≡◌, ◌+◌, Bool, true, ◌&&◌, List, [], ◌∷◌, option_map, is_some, if◌then◌else◌};
ghost use Rattle.text.specs.Kept.{path_bytes};
ghost use Rattle.reading.specs.Reads.{and_then, ok_mapped};
ghost use Rattle.listing.specs.Words.{Piece, seen_word};
ghost use Rattle.listing.specs.Entries.{dir_type, row_path, listed_row, row_of, row_after, row};

use crate::row::Stat;
use crate::words::{Placed, Word, word_of};
use reading::Refusal;
use text::{Path, mode_of, number_of, words};

// The path of a line, and what it says of the file there.
#[derive(Clone, Copy)]
pub struct Row {
    pub path: Path,
    pub stat: Stat,
}

// What the words so far give: what stands past the dot of the path, and the texts of the four keywords.
#[derive(Clone, Copy, Debug, Default, PartialEq, Eq)]
struct Found<'a> {
    path: Option<&'a [u8]>,
    kind: Option<&'a [u8]>,
    uid: Option<&'a [u8]>,
    gid: Option<&'a [u8]>,
    mode: Option<&'a [u8]>,
}

// Keeps the text of a covered word, if it is the first; the answer says that the word is covered.
fn keep<'a>(given: &mut Option<&'a [u8]>, text: &'a [u8]) -> Result<bool, Refusal>
    ensures told { result ≡ (if is_some given.old then Err Refusal.Fields else Ok true) }
    ensures held { given.new ≡ Some text.entry }
{
    match given.replace(text) {
        None => Ok(true),
        Some(_) => Err(Refusal::Fields),
    }
}

impl<'a> Found<'a> {
    // Notes a word more, and says whether it is covered: the path, or one of the four keywords with a text.
    fn note(&mut self, placed: Placed<'a>) -> Result<bool, Refusal>
        ensures { (c : Bool) (ps : List Piece) → and_then result (λ b. row_after self.new (c && b) (placed.entry.place + 1) ps) ≡ row_after self.old c placed.entry.place (seen_word placed.entry.word ∷ ps) }
    {
        match placed.word {
            Word::Path(path) if placed.place == 0 => keep(&mut self.path, path),
            Word::Path(_) => Err(Refusal::Fields),
            Word::Keyword(b"type", Some(text)) => keep(&mut self.kind, text),
            Word::Keyword(b"uid", Some(text)) => keep(&mut self.uid, text),
            Word::Keyword(b"gid", Some(text)) => keep(&mut self.gid, text),
            Word::Keyword(b"mode", Some(text)) => keep(&mut self.mode, text),
            Word::Keyword(..) => Ok(false),
        }
    }

    // The row that the words found make, where covered says that each of them is covered.
    fn row(self, covered: bool) -> Result<Row, Refusal>
        ensures { ok_mapped listed_row result ≡ row_after self.entry covered 0 [] }
    {
        let path = self.path.ok_or(Refusal::Fields)?;
        let kind = self.kind.ok_or(Refusal::Fields)?;
        let uid = self.uid.ok_or(Refusal::Fields)?;
        let gid = self.gid.ok_or(Refusal::Fields)?;
        let mode = self.mode.ok_or(Refusal::Fields)?;
        if !covered {
            return Err(Refusal::NotCovered);
        }
        let dir = dir_of(kind).ok_or(Refusal::NotCovered)?;
        let path = path_of(path).ok_or(Refusal::BadName)?;
        let owner = number_of(uid).ok_or(Refusal::BadNumber)?;
        let group = number_of(gid).ok_or(Refusal::BadNumber)?;
        let mode = mode_of(mode).ok_or(Refusal::BadNumber)?;
        let stat = Stat {
            dir,
            owner,
            group,
            mode,
        };
        Ok(Row { path, stat })
    }
}

// Whether a type is that of a directory, where it is one of mtree's seven.
#[tactic(auto, using(crate::proofs::Spelled::spelled))]
fn dir_of(s: &[u8]) -> Option<bool>
    ensures { result ≡ dir_type s.now }
{
    match s {
        b"dir" => Some(true),
        b"block" | b"char" | b"fifo" | b"file" | b"link" | b"socket" => Some(false),
        _ => None,
    }
}

// The path that stands past a dot.
fn path_of(past_dot: &[u8]) -> Option<Path>
    ensures { option_map path_bytes result ≡ row_path past_dot.now }
{
    match past_dot {
        [] => Path::new(b"/"),
        path => Path::new(path),
    }
}

// The row that a line lists.
pub fn row_of(line: &[u8]) -> Result<Row, Refusal>
    ensures { ok_mapped listed_row result ≡ row line.now }
{
    let mut found = Found::default();
    let mut covered = true;
    for (place, word) in words(line).enumerate() {
        let word = word_of(word);
        covered &= found.note(Placed { place, word })?;
    }
    found.row(covered)
}
