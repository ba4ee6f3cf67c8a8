ghost use Rattle.std.specs.Prelude.{◌≡◌, length, replicate};

// The marks of one question: all zero at its end.
pub struct Marks<'a> {
    pub cells: &'a mut [u8],
}

impl Drop for Marks<'_> {
    fn drop(self)
        ensures { self.exit.0.now ≡ replicate (length self.entry.cells.now) 0 }
    {
        self.cells.fill(0);
        let Marks { cells: _ } = self;
    }
}
