// The lines of hosts.equiv or of a .rhosts: N at most, in room that is taken when the table is made.
ghost use Rattle.std.specs.Prelude.{◌≡◌, ◌≤◌, [], map, length, IfOk};

pub mod read;

use crate::words::TrustLine;
use bounded::BoundedVec;
use std::alloc::{AllocError, Global};

#[derive(Drop)]
pub struct TrustLines<const N: usize> {
    rows: BoundedVec<TrustLine, N>,
    ghost few: { length rows ≤ N },
}

impl<const N: usize> TrustLines<N> {
    ghost use Rattle.trust.specs.Rows.{trust_entry};
    ghost use Rattle.trust.specs.TrustText.{trust_of};

    // An empty table with room for N lines.
    pub fn new(heap: Global) -> Result<TrustLines<N>, AllocError>
        ensures { IfOk result (λ t. trust_of t ≡ []) }
    {
        let rows = BoundedVec::new(heap)?;
        Ok(TrustLines { rows })
    }

    // The lines in their order.
    pub fn as_slice(&self) -> &[TrustLine]
        ensures { map trust_entry result.now ≡ trust_of self.now }
    {
        self.rows.as_slice()
    }
}
