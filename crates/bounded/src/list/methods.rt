// What a bounded list does: it keeps as much as there is room for, and refuses nothing.
ghost use Rattle.std.specs.Prelude.{◌≡◌, ◌<◌, ◌≤◌, [], ◌∷◌, ◌++◌, length};
ghost use Rattle.bounded.specs.ArrayVecs.{items_of, Added};

use super::ArrayVec;

impl<T: Copy, const N: usize> ArrayVec<T, N> {
    // A list of nothing; blank fills the places that are not in use.
    pub fn new(blank: T) -> ArrayVec<T, N>
        ensures { items_of result ≡ [] }
    {
        ArrayVec {
            items: [blank; N],
            len: 0,
        }
    }

    // How many items there are.
    pub fn len(&self) -> usize
        ensures { result ≡ length (items_of self.now) }
    {
        self.as_slice().len()
    }

    // The items in their order.
    pub fn as_slice(&self) -> &[T]
        ensures { result.now ≡ items_of self.now }
    {
        let all = &self.items[..];
        &all[0..self.len]
    }

    fn push(&mut self, x: T)
        requires { length (items_of self.old) < N }
        ensures { items_of self.new ≡ items_of self.old ++ x ∷ [] }
    {
        self.items[self.len] = x;
        self.len += 1;
    }

    // Adds as much as there is room for.
    pub fn add(&mut self, s: &[T])
        ensures { Added N (items_of self.old) s.now (items_of self.new) }
    {
        for x in s {
            if self.len() < N {
                self.push(*x);
            }
        }
    }
}
