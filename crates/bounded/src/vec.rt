// A list of at most N items on the heap, whose room is all taken when it is made: after that nothing allocates.
ghost use Rattle.std.specs.Prelude.{◌≡◌, ◌<◌, ◌≤◌, [], ◌∷◌, ◌++◌, List, length, slice_get, slice_set, remove, IfOk, if◌then◌else◌, nat_lt, Ok, Err, vec_len, vec_capacity};
ghost use Rattle.std.specs.Coded.{coded_list};

use std::alloc::{AllocError, Global};
use std::marker::Model;
use std::mem::replace;

#[derive(Drop)]
pub struct BoundedVec<T, const N: usize> {
    items: Vec<T>,
}

impl<T, const N: usize> Model for BoundedVec<T, N> {
    ghost Value = { List T };

    ghost coded = { coded_list T.code };

    ghost view = { λ v. v.items.items };

    ghost invariant = { λ v. (vec_len v.items ≤ N) × (N ≤ vec_capacity v.items) };
}

// There is no room for an item more.
#[derive(Clone, Copy, Debug, PartialEq, Eq)]
pub struct Full;

impl<T: Drop, const N: usize> BoundedVec<T, N> {
    // An empty list with room for N items.
    pub fn new(heap: Global) -> Result<BoundedVec<T, N>, AllocError>
        ensures { IfOk result (λ v. v ≡ []) }
    {
        let items = Vec::with_capacity(heap, N)?;
        Ok(BoundedVec { items })
    }

    // The items in their order.
    pub fn as_slice(&self) -> &[T]
        ensures items { result.now ≡ self.now }
        ensures few { length result.now ≤ N }
    {
        self.items.as_slice()
    }

    // Adds an item at the end, if there is room.
    pub fn push(&mut self, x: T) -> Result<(), Full>
        ensures told { result ≡ (if nat_lt (length self.old) N then Ok tt else Err record {}) }
        ensures held { self.new ≡ (if nat_lt (length self.old) N then self.old ++ x ∷ [] else self.old) }
    {
        if self.items.len() >= N {
            return Err(Full);
        }
        self.items.push_reserved(x);
        Ok(())
    }

    // Puts an item in the place of another, which is given back; where there is none, nothing is altered.
    pub fn set(&mut self, i: usize, x: T) -> Option<T>
        ensures before { result ≡ slice_get self.old i }
        ensures held { self.new ≡ slice_set self.old i x }
    {
        if i >= self.items.len() {
            return None;
        }
        Some(replace(&mut self.items[i], x))
    }

    // Takes the item of a place out, if there is one, and moves the later ones down.
    pub fn remove(&mut self, i: usize) -> Option<T>
        ensures before { result ≡ slice_get self.old i }
        ensures held { self.new ≡ remove self.old i }
    {
        if i >= self.items.len() {
            return None;
        }
        Some(self.items.remove(i))
    }

    // Takes all items out.
    pub fn clear(&mut self)
        ensures { self.new ≡ [] }
    {
        self.items.clear();
    }
}

#[cfg(test)]
mod tests {
    use super::{BoundedVec, Full};
    use std::test::Fail;

    #[test]
    fn takes_as_many_as_there_is_room_for(rt: HostRuntime) -> Result<(), Fail> {
        let mut list: BoundedVec<u8, 2> = BoundedVec::new(rt.alloc())?;
        assert_eq!(rt; list.push(1), Ok(()));
        assert_eq!(rt; list.push(2), Ok(()));
        assert_eq!(rt; list.push(3), Err(Full));
        assert_eq!(rt; list.set(1, 4), Some(2));
        assert_eq!(rt; list.remove(0), Some(1));
        assert_eq!(rt; list.as_slice(), [4u8].as_slice());
        Ok(())
    }
}
