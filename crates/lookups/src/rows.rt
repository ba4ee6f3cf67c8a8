// File rows by path.
ghost use Rattle.std.specs.Prelude.{◌≡◌, ℕ, ◌+◌, ◌<◌, ◌&&◌, List, [], ◌++◌, map, length, is_some, if◌then◌else◌, codes, IfSome, position};
ghost use Rattle.std.specs.Option.{option_map};
ghost use Rattle.std.specs.Str.{bytes_eq};
ghost use Rattle.text.specs.Kept.{name_bytes, path_bytes};
ghost use Rattle.listing.specs.Rows.{file_entry, stat_of};
ghost use Rattle.allows.specs.Paths.{in_home, nis_map};
ghost use Rattle.allows.specs.Trust.{owned_by};

use crate::bytes::{joins, joins_three};
use listing::{FileRow, Stat};
use text::{Name, Path};

// What stands before the name of a file in a home: the home `/` adds no part of its own.
fn home_front(home: &Path) -> &[u8]
    ensures { result.now ≡ (if bytes_eq (path_bytes home.now) (codes "/") then [] else path_bytes home.now) }
{
    if home.is(b"/") { b"" } else { home.as_slice() }
}

// The place of the row of a file in a home, if it is present; the file's name has a slash before it.
pub fn home_row(rows: &[FileRow], home: &Path, file: &[u8]) -> Option<usize>
    ensures place { result ≡ position (λ x. bytes_eq x.path (in_home (path_bytes home.now) file.now) && is_some x.stat) (map file_entry rows.now) }
    ensures within { IfSome result (λ r. r < length rows.now) }
{
    let front = home_front(home);
    rows.iter().position(|row| row.stat.is_some() && joins(row.path.as_slice(), front, file))
}

// The place of the row of a NIS map of a domain, present or not; the map's name has a slash before it.
pub fn nis_row(rows: &[FileRow], domain: &Name, file: &[u8]) -> Option<usize>
    ensures place { result ≡ position (λ x. bytes_eq x.path (nis_map (name_bytes domain.now) file.now)) (map file_entry rows.now) }
    ensures within { IfSome result (λ r. r < length rows.now) }
{
    let domain = domain.as_slice();
    rows.iter().position(|row| joins_three(row.path.as_slice(), b"/var/yp/", domain, file))
}

// Whether a file is present and has this owner.
pub fn owned_by(n: u32, stat: Option<Stat>) -> bool
    ensures { result ≡ owned_by n (option_map stat_of stat) }
{
    stat.is_some_and(|stat| stat.owner == n)
}
