// A line of hosts.equiv or of a .rhosts: a host word, and perhaps a user word.
ghost use Rattle.std.specs.Prelude.{◌≡◌, ℕ};
ghost use Rattle.std.specs.Option.{option_map};
ghost use Rattle.text.specs.Cuts.{words};
ghost use Rattle.reading.specs.Reads.{ok_mapped};
ghost use Rattle.trust.specs.Rows.{trust_word, trust_entry};
ghost use Rattle.trust.specs.TrustText.{line_words, one_or_two, uncovered, uncovered_in, word_in, user_in, line_in};

use reading::Refusal;
use text::{Name, words};

// A plus, or a name.
#[derive(Clone, Copy)]
pub enum TrustWord {
    Anyone,
    Named(Name),
}

#[derive(Clone, Copy)]
pub struct TrustLine {
    pub host: TrustWord,
    pub user: Option<TrustWord>,
}

#[derive(Clone, Copy)]
struct Words<'a> {
    host: &'a [u8],
    user: Option<&'a [u8]>,
}

// The words of a line that has one or two.
fn words_of<'a>(line: &'a [u8]) -> Option<Words<'a>>
    ensures { option_map line_words result ≡ one_or_two (words line.now) }
{
    let mut parts = words(line);
    let host = parts.next()?;
    let user = parts.next();
    if parts.next().is_some() {
        return None;
    }
    Some(Words { host, user })
}

// Whether a word is a netgroup, or withdraws trust: neither is covered.
fn is_uncovered(word: &[u8]) -> bool
    ensures { result ≡ uncovered word.now }
{
    matches!(word, [b'-', ..] | [b'+', b'@', ..])
}

fn has_uncovered(line: Words) -> bool
    ensures { result ≡ uncovered_in (line_words line.entry) }
{
    is_uncovered(line.host) || line.user.is_some_and(is_uncovered)
}

fn word_of(word: &[u8]) -> Option<TrustWord>
    ensures { option_map trust_word result ≡ word_in word.now }
{
    match word {
        b"+" => Some(TrustWord::Anyone),
        _ => Name::new(word).map(TrustWord::Named),
    }
}

fn user_of(word: Option<&[u8]>) -> Result<Option<TrustWord>, Refusal>
    ensures { ok_mapped (option_map trust_word) result ≡ user_in (option_map (λ x. x.now) word.entry) }
{
    match word {
        Some(user) => Ok(Some(word_of(user).ok_or(Refusal::BadName)?)),
        None => Ok(None),
    }
}

// The trust that a line gives.
pub fn line_of(line: &[u8]) -> Result<TrustLine, Refusal>
    ensures { ok_mapped trust_entry result ≡ line_in line.now }
{
    let found = words_of(line).ok_or(Refusal::Fields)?;
    if has_uncovered(found) {
        return Err(Refusal::NotCovered);
    }
    let host = word_of(found.host).ok_or(Refusal::BadName)?;
    let user = user_of(found.user)?;
    Ok(TrustLine { host, user })
}
