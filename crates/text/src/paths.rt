// What a path is, and the directory above it.
ghost use Rattle.std.specs.Prelude.{◌≡◌};
ghost use Rattle.std.specs.List.{list_all};
ghost use Rattle.text.specs.Bytes.{part};
ghost use Rattle.text.specs.Cuts.{fields};
ghost use Rattle.text.specs.Paths.{path_form, path, parent};
ghost use Rattle.text.specs.declared.cuts.Mark.TheVariants.{Slash};

use crate::cuts::Mark;
use crate::names::is_name;
use crate::parts::fields;

fn is_part(s: &[u8]) -> bool
    ensures { result ≡ part s.now }
{
    match s {
        b"." | b".." => false,
        _ => is_name(s),
    }
}

fn are_parts(s: &[u8]) -> bool
    ensures { result ≡ list_all part (fields Slash s.now) }
{
    fields(s, Mark::Slash).all(|p| is_part(p))
}

// A slash alone, or parts that are each a slash and a name.
pub(crate) fn is_path_form(s: &[u8]) -> bool
    ensures { result ≡ path_form s.now }
{
    match s {
        b"/" => true,
        [b'/', parts @ ..] => are_parts(parts),
        _ => false,
    }
}

// A path: 63 bytes at most.
pub fn is_path(s: &[u8]) -> bool
    ensures { result ≡ path s.now }
{
    s.len() <= 63 && is_path_form(s)
}

// The directory above: the path without its last part.
pub fn parent_of<'a>(path: &'a [u8]) -> &'a [u8]
    ensures { result.now ≡ parent path.now }
{
    let last = path.iter().rposition(|b| *b == b'/').unwrap_or(0);
    if last == 0 { b"/" } else { &path[..last] }
}
