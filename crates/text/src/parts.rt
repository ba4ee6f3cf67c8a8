// Goes over the lines, the words or the fields of a text.
ghost use Rattle.std.specs.Prelude.{◌≡◌, ◌+◌, ◌≤◌, length};
ghost use Rattle.std.specs.Iterator.{YieldsFirstRef, item_count};
ghost use Rattle.text.specs.Cuts.{lines, words, fields};
ghost use Rattle.text.specs.Parts.{lines_left, words_left, fields_left};
ghost use Rattle.text.specs.PartLaws.{LinesJoined, WordsApart, FieldsJoined};

use crate::cuts::{Mark, cut, next_line, next_word};

// The lines of a text that are still to come.
#[derive(Drop)]
pub struct LinesLeft<'a> {
    left: &'a [u8],
}

// The words of a line that are still to come.
#[derive(Drop)]
pub struct WordsLeft<'a> {
    left: &'a [u8],
}

// The fields of a text that are still to come, if any are, and what is between two of them.
#[derive(Drop)]
pub struct FieldsLeft<'a> {
    left: Option<&'a [u8]>,
    mark: Mark,
}

// The lines of a text, each without the byte that ends it.
pub fn lines<'a>(text: &'a [u8]) -> LinesLeft<'a>
    ensures all { lines_left result ≡ lines text.now }
    ensures joined { LinesJoined text.now }
    ensures few { length (lines text.now) ≤ length text.now }
{
    LinesLeft { left: text }
}

// The words of a line: its runs of bytes that are no blank or tab.
pub fn words<'a>(line: &'a [u8]) -> WordsLeft<'a>
    ensures all { words_left result ≡ words line.now }
    ensures apart { WordsApart line.now }
    ensures few { length (words line.now) ≤ length line.now }
{
    WordsLeft { left: line }
}

// The fields of a text, which may be empty, between its marks.
pub fn fields<'a>(text: &'a [u8], mark: Mark) -> FieldsLeft<'a>
    ensures all { fields_left result ≡ fields mark text.now }
    ensures joined { FieldsJoined mark text.now }
    ensures few { length (fields mark text.now) ≤ length text.now + 1 }
{
    FieldsLeft {
        left: Some(text),
        mark,
    }
}

impl<'a> Iterator for LinesLeft<'a> {
    type Item = &'a [u8];

    ghost next_gives = { YieldsFirstRef lines_left };

    ghost remaining = { item_count lines_left };

    fn next(&mut self) -> Option<&'a [u8]> {
        let (line, rest) = next_line(self.left)?;
        self.left = rest;
        Some(line)
    }
}

impl<'a> Iterator for WordsLeft<'a> {
    type Item = &'a [u8];

    ghost next_gives = { YieldsFirstRef words_left };

    ghost remaining = { item_count words_left };

    fn next(&mut self) -> Option<&'a [u8]> {
        let (word, rest) = next_word(self.left)?;
        self.left = rest;
        Some(word)
    }
}

impl<'a> Iterator for FieldsLeft<'a> {
    type Item = &'a [u8];

    ghost next_gives = { YieldsFirstRef fields_left };

    ghost remaining = { item_count fields_left };

    fn next(&mut self) -> Option<&'a [u8]> {
        let (field, rest) = cut(self.left?, self.mark);
        self.left = rest;
        Some(field)
    }
}
