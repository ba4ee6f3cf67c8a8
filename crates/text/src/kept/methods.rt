// A text of a form is made from bytes that have it, and shows its bytes.
ghost use Rattle.std.specs.Prelude.{◌≡◌, ⊤, ◌≤◌, length};
ghost use Rattle.std.specs.Option.{option_map};
ghost use Rattle.std.specs.Str.{bytes_eq};
ghost use Rattle.text.specs.Kept.{formed_bytes, formed_in};

use super::{Form, Formed};
use bounded::ArrayVec;
use std::marker::PhantomData;

impl<F: Form, const N: usize> Formed<F, N> {
    // The text that these bytes are, if they have its form.
    pub fn new(s: &[u8]) -> Option<Formed<F, N>>
        ensures { option_map formed_bytes result ≡ formed_in N F.test s.now }
    {
        if s.len() > N || !F::accepts(s) {
            return None;
        }
        let mut bytes = ArrayVec::new(0);
        bytes.add(s);
        Some(Formed {
            bytes,
            form: PhantomData,
        })
    }

    // Whether it has these bytes.
    pub fn is(&self, s: &[u8]) -> bool
        ensures { result ≡ bytes_eq (formed_bytes self.now) s.now }
    {
        self.as_slice() == s
    }

    pub fn as_slice(&self) -> &[u8]
        ensures { result.now ≡ formed_bytes self.now }
    {
        self.bytes.as_slice()
    }
}
