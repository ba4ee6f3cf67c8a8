// Cuts a text at marks: lines, fields between colons or commas, words between blanks.
ghost use Rattle.std.specs.Prelude.{◌≡◌, ◌<◌, ◌∷◌, length, IfSome, not, position};
ghost use Rattle.std.specs.Option.{option_map};
ghost use Rattle.text.specs.Cuts.{marks, until, past, fields, fields_past, lines, words, Next, Splits};
ghost use Rattle.text.specs.PartLaws.{LinesJoined, FieldsJoined, WordsApart};

// What ends a part of a text.
#[derive(Clone, Copy, Debug, PartialEq, Eq)]
pub enum Mark {
    Newline,
    Blank,
    Colon,
    Comma,
    Slash,
    Equals,
    Hash,
}

fn is_mark(m: Mark, b: u8) -> bool
    ensures { result ≡ marks m b }
{
    match (m, b as char) {
        (Mark::Newline, '\n') => true,
        (Mark::Blank, ' ' | '\t') => true,
        (Mark::Colon, ':') => true,
        (Mark::Comma, ',') => true,
        (Mark::Slash, '/') => true,
        (Mark::Equals, '=') => true,
        (Mark::Hash, '#') => true,
        _ => false,
    }
}

// Where the first mark stands.
fn first_mark(s: &[u8], m: Mark) -> Option<usize>
    ensures place { result ≡ position (marks m) s.now }
    ensures within { IfSome result (λ i. i < length s.now) }
{
    s.iter().position(|b| is_mark(m, *b))
}

// Where the first byte stands that is no mark.
fn first_other(s: &[u8], m: Mark) -> Option<usize>
    ensures place { result ≡ position (λ b. not (marks m b)) s.now }
    ensures within { IfSome result (λ i. i < length s.now) }
{
    s.iter().position(|b| !is_mark(m, *b))
}

// The bytes before the first mark, and those past it if there is one.
pub fn cut<'a>(s: &'a [u8], m: Mark) -> (&'a [u8], Option<&'a [u8]>)
    ensures part { result.0.now ≡ until (marks m) s.now }
    ensures rest { option_map (λ x. x.now) result.1 ≡ past (marks m) s.now }
    ensures fields { fields m s.now ≡ result.0.now ∷ fields_past m (option_map (λ x. x.now) result.1) }
    ensures shorter { IfSome result.1 (λ x. length x.now < length s.now) }
{
    match first_mark(s, m) {
        Some(i) => (&s[..i], Some(&s[i + 1..])),
        None => (s, None),
    }
}

// The bytes before the first mark and those past it, or none where there is no mark.
pub fn split_once<'a>(s: &'a [u8], m: Mark) -> Option<(&'a [u8], &'a [u8])>
    ensures split { Splits m s.now result }
    ensures joined { FieldsJoined m s.now }
{
    let (part, rest) = cut(s, m);
    let rest = rest?;
    Some((part, rest))
}

// The first line, and the text past it.
pub fn next_line<'a>(s: &'a [u8]) -> Option<(&'a [u8], &'a [u8])>
    ensures next { Next lines s.now result }
    ensures joined { LinesJoined s.now }
{
    if s.is_empty() {
        return None;
    }
    let (line, rest) = cut(s, Mark::Newline);
    Some((line, rest.unwrap_or(&[])))
}

// The first word, and the text past it.
pub fn next_word<'a>(s: &'a [u8]) -> Option<(&'a [u8], &'a [u8])>
    ensures next { Next words s.now result }
    ensures apart { WordsApart s.now }
{
    let start = first_other(s, Mark::Blank)?;
    let (word, rest) = cut(&s[start..], Mark::Blank);
    Some((word, rest.unwrap_or(&[])))
}
