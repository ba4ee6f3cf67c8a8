// A table of file rows takes a listing line by line.
ghost use Rattle.std.specs.Prelude.{◌≡◌, List, length, OnOk};
ghost use Rattle.region.specs.Tables.{FileEntry};
ghost use Rattle.region.specs.Sound.{FilesSound};
ghost use Rattle.reading.specs.declared.fault.Kind.TheVariants.{Mtree};
ghost use Rattle.reading.specs.Reads.{outcome, value_or, text_told, entry_lines};
ghost use Rattle.listing.specs.Rows.{file_entry, absent_rows};
ghost use Rattle.listing.specs.Entries.{listed_row};
ghost use Rattle.listing.specs.Laws.{DirsAbove, listed_rows};
ghost use Rattle.listing.specs.Files.{files_of, above_of, put_step, list_step, file_step, files_in, Fitting};

use super::Files;
use super::fixed::reset;
use super::places::{place_of, stat_at};
use crate::entry::{Row, row_of};
use crate::row::FileRow;
use reading::{Kind, Refusal, Table, TextFault, is_passed_over, read_text};
use text::parent_of;

impl Files {
    // The place of the row above a path that may be listed now.
    fn above_of(&self, path: &[u8]) -> Result<u8, Refusal>
        ensures { result ≡ above_of (files_of self.now) path.now }
    {
        let rows = self.rows.as_slice();
        let listed = place_of(rows, path).and_then(|place| stat_at(rows, place));
        if listed.is_some() {
            return Err(Refusal::Given);
        }
        let above = place_of(rows, parent_of(path)).ok_or(Refusal::Unknown)?;
        if matches!(path, b"/") || stat_at(rows, above).is_some_and(|stat| stat.dir) {
            return Ok(above as u8);
        }
        Err(Refusal::Unknown)
    }

    // Puts a row at the place of its path, or at the end.
    fn put(&mut self, row: FileRow) -> Result<(), Refusal>
        requires { Fitting (files_of self.old) (file_entry row) }
        ensures { outcome result (files_of self.new) ≡ put_step (files_of self.old) (file_entry row) }
    {
        match place_of(self.rows.as_slice(), row.path.as_slice()) {
            Some(place) => {
                self.rows.set(place, row);
            }
            None => self.rows.push(row)?,
        }
        Ok(())
    }

    fn list(&mut self, row: Row) -> Result<(), Refusal>
        ensures { outcome result (files_of self.new) ≡ list_step (files_of self.old) (listed_row row) }
    {
        let above = self.above_of(row.path.as_slice())?;
        self.put(FileRow {
            path: row.path,
            above,
            stat: Some(row.stat),
        })
    }
}

impl Table for Files {
    type Beside = ();

    ghost Seen = { List FileEntry };

    ghost seen = { λ t. files_of t };

    ghost first = { absent_rows };

    ghost step = { λ _ xs l. file_step xs l };

    fn clear(&mut self) {
        reset(&mut self.rows);
    }

    fn line(&mut self, _beside: &(), line: &[u8]) -> Result<(), Refusal> {
        if is_passed_over(line) {
            return Ok(());
        }
        self.list(row_of(line)?)
    }
}

// Puts the rows of a listing in place of those in the table; a listing that is refused leaves the table as on the first day.
pub fn read_files(files: &mut Files, text: &[u8]) -> Result<(), TextFault>
    ensures told { result ≡ text_told Mtree (files_in text.now) }
    ensures held { files_of files.new ≡ value_or absent_rows (files_in text.now) }
    ensures sound { FilesSound (files_of files.new) }
    ensures under { DirsAbove (files_of files.new) }
    ensures counted { OnOk result (listed_rows (files_of files.new) ≡ length (entry_lines text.now)) }
{
    read_text(Kind::Mtree, files, &(), text)
}
