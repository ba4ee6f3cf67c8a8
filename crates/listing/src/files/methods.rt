// A table of file rows is made, and shows its rows.
ghost use Rattle.std.specs.Prelude.{◌≡◌, map, IfOk};
ghost use Rattle.listing.specs.Rows.{file_entry, absent_rows};
ghost use Rattle.listing.specs.Files.{files_of};

use super::Files;
use super::fixed::reset;
use crate::row::FileRow;
use bounded::BoundedVec;
use std::alloc::{AllocError, Global};

impl Files {
    // A table of the rows that every host has, all absent, with room for 64.
    pub fn new(heap: Global) -> Result<Files, AllocError>
        ensures { IfOk result (λ t. files_of t ≡ absent_rows) }
    {
        let mut rows = BoundedVec::new(heap)?;
        reset(&mut rows);
        Ok(Files { rows })
    }

    // The rows by their places.
    pub fn as_slice(&self) -> &[FileRow]
        ensures { map file_entry result.now ≡ files_of self.now }
    {
        self.rows.as_slice()
    }
}
