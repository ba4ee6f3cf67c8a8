// A file row, and what a listing says of a file that is present.
use text::Path;

#[derive(Clone, Copy, Debug, PartialEq, Eq)]
pub struct Stat {
    pub dir: bool,
    pub owner: u32,
    pub group: u32,
    pub mode: u16,
}

// A path, the place of the row of the directory above it, and its stat, none while it is absent.
#[derive(Clone, Copy)]
pub struct FileRow {
    pub path: Path,
    pub above: u8,
    pub stat: Option<Stat>,
}
