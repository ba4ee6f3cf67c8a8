// Whom lines of hosts.equiv or of a .rhosts let in.
ghost use Rattle.std.specs.Prelude.{◌≡◌, ◌&&◌, map};
ghost use Rattle.std.specs.List.{list_any};
ghost use Rattle.std.specs.Option.{option_map};
ghost use Rattle.text.specs.Kept.{name_bytes};
ghost use Rattle.trust.specs.Rows.{trust_word, trust_entry};
ghost use Rattle.allows.specs.Trust.{word_fits, user_fits};
ghost use Rattle.lookups.specs.Lines.{lets_in};

use text::Name;
use trust::{TrustLine, TrustWord};

// A word fits a name if it is a plus or that name.
fn word_fits(word: &TrustWord, name: &Name) -> bool
    ensures { result ≡ word_fits (trust_word word.now) (name_bytes name.now) }
{
    match word {
        TrustWord::Anyone => true,
        TrustWord::Named(own) => own.is(name.as_slice()),
    }
}

// Without a user word, the user's name has to be the account's own.
fn user_fits(word: &Option<TrustWord>, user: &Name, own: &Name) -> bool
    ensures { result ≡ user_fits (option_map trust_word word.now) (name_bytes user.now) (name_bytes own.now) }
{
    match word {
        None => user.is(own.as_slice()),
        Some(word) => word_fits(word, user),
    }
}

fn line_fits(line: &TrustLine, host: &Name, user: &Name, own: &Name) -> bool
    ensures { result ≡ lets_in (name_bytes host.now) (name_bytes user.now) (name_bytes own.now) (trust_entry line.now) }
{
    word_fits(&line.host, host) && user_fits(&line.user, user, own)
}

// Whether some line lets a user of a host into the account that is named own.
pub fn some_line_fits(lines: &[TrustLine], host: &Name, user: &Name, own: &Name) -> bool
    ensures { result ≡ list_any (lets_in (name_bytes host.now) (name_bytes user.now) (name_bytes own.now)) (map trust_entry lines.now) }
{
    lines.iter().any(|line| line_fits(line, host, user, own))
}
