// The rows that every host has, absent until they are listed.
ghost use Rattle.std.specs.Prelude.{◌≡◌, map};
ghost use Rattle.listing.specs.Rows.{file_entry, absent_rows};

use crate::row::FileRow;
use bounded::BoundedVec;
use text::Path;

// The paths of these rows, each with the place of the row above it.
const FIXED: [(&[u8], u8); 11] = [
    (b"/", 0),
    (b"/etc", 0),
    (b"/etc/passwd", 1),
    (b"/etc/group", 1),
    (b"/etc/hosts.equiv", 1),
    (b"/etc/rc", 1),
    (b"/etc/rc.local", 1),
    (b"/usr", 0),
    (b"/usr/lib", 7),
    (b"/usr/lib/crontab", 8),
    (b"/usr/lib/aliases", 8),
];

// Makes a table as on the first day.
pub fn reset(rows: &mut BoundedVec<FileRow, 64>)
    ensures { map file_entry rows.new ≡ absent_rows }
{
    rows.clear();
    for (path, above) in FIXED {
        let path = Path::new(path).unwrap();
        let stat = None;
        rows.push(FileRow { path, above, stat }).unwrap();
    }
}
