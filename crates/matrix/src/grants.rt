ghost use Rattle.std.specs.Prelude.{◌≡◌, ◌+◌, ◌*◌, ◌<◌, true, false, IfSome, vec_len};
ghost use Rattle.std.specs.Option.{SomeIff};
ghost use Rattle.matrix.specs.Grants.{matrix_rules, inside, Made, Read, Put};
ghost use Rattle.matrix.specs.Lawful.{matrix_lawful};

use crate::refusal::{Refusal, Unmade};
use crate::table::Matrix;
use rules::source::RuleSource;
use std::alloc::Global;

impl Matrix {
    // A matrix of so many operations, none of which grants any.
    pub fn new(heap: Global, count: u16) -> Result<Matrix, Unmade>
        ensures { Made count result }
    {
        if count > 256 {
            return Err(Unmade::TooMany);
        }
        let cells = vec![in heap; false; count as usize * count as usize]?;
        Ok(Matrix { count, cells })
    }

    // The place of the cell that says whether p grants g, if both are operations of the matrix.
    fn cell(&self, p: u16, g: u16) -> Option<usize>
        ensures place { SomeIff result (inside self.now p g ≡ true) (g * self.now.count + p) }
        ensures within { IfSome result (λ i. i < vec_len self.now.cells) }
    {
        let place = g as usize * self.count as usize + p as usize;
        (p < self.count && g < self.count).then_some(place)
    }

    // Whether p grants g.
    pub fn granted(&self, p: u16, g: u16) -> Result<bool, Refusal>
        ensures { Read self.now p g result }
    {
        let cell = self.cell(p, g).ok_or(Refusal::NotLive)?;
        Ok(self.cells[cell])
    }

    // From now on p grants g.
    pub fn grant(&mut self, p: u16, g: u16) -> Result<(), Refusal>
        ensures { Put true p g self.old self.new result }
    {
        self.put(p, g, true)
    }

    // From now on p does not grant g.
    pub fn revoke(&mut self, p: u16, g: u16) -> Result<(), Refusal>
        ensures { Put false p g self.old self.new result }
    {
        self.put(p, g, false)
    }

    // From now on p grants g, or does not.
    fn put(&mut self, p: u16, g: u16, grants: bool) -> Result<(), Refusal>
        ensures { Put grants p g self.old self.new result }
    {
        let cell = self.cell(p, g).ok_or(Refusal::NotLive)?;
        self.cells[cell] = grants;
        Ok(())
    }
}

impl RuleSource for Matrix {
    ghost meaning = { matrix_rules };

    ghost lawful = { matrix_lawful };

    fn count(&self) -> u16 {
        self.count
    }

    fn width(&self) -> u16 {
        self.count
    }

    fn live(&self, p: u16) -> bool {
        p < self.count
    }

    fn place(&self, _p: u16) -> u8 {
        0
    }

    fn slot(&self, g: u16, k: u16) -> Option<(u16, u8)> {
        let cell = self.cell(k, g)?;
        // no `then_some`: by it a question over a trial of a matrix takes a quarter more instructions
        if !self.cells[cell] {
            return None;
        }
        Some((k, 201))
    }
}
