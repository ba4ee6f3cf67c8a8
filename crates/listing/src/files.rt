// The file rows of a host: 64 at most, in room that is taken when the table is made.
ghost use Rattle.std.specs.Prelude.{◌≤◌, map, length};
ghost use Rattle.listing.specs.Rows.{file_entry, FixedRows, PathsOnce, ParentsAbove, UnderDirs};

mod fixed;
mod methods;
mod places;
pub mod table;

use crate::row::FileRow;
use bounded::BoundedVec;

// Callers of a BoundedVec learn its bound from a call; few says it of the table as a value, on which the soundness of a host rests.
#[derive(Drop)]
pub struct Files {
    rows: BoundedVec<FileRow, 64>,
    ghost few: { length (map file_entry rows) ≤ 64 },
    ghost fixed: { FixedRows (map file_entry rows) },
    ghost once: { PathsOnce (map file_entry rows) },
    ghost parents: { ParentsAbove (map file_entry rows) },
    ghost under: { UnderDirs (map file_entry rows) },
}
