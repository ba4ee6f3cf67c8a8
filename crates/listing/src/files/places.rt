// Where the row of a path stands among rows, and what is listed there.
ghost use Rattle.std.specs.Prelude.{◌≡◌, ◌<◌, map, length, IfSome, option_map};
ghost use Rattle.listing.specs.Rows.{file_entry, stat_of, place_of, stat_at};

use crate::row::{FileRow, Stat};

// The place of the row of a path.
pub fn place_of(rows: &[FileRow], path: &[u8]) -> Option<usize>
    ensures place { result ≡ place_of path.now (map file_entry rows.now) }
    ensures within { IfSome result (λ i. i < length rows.now) }
{
    rows.iter().position(|row| row.path.is(path))
}

// What is listed at a place.
pub fn stat_at(rows: &[FileRow], place: usize) -> Option<Stat>
    ensures { option_map stat_of result ≡ stat_at (map file_entry rows.now) place }
{
    rows.get(place)?.stat
}
