// Names and paths that hold their bytes, and whose form is part of the type.
ghost use Rattle.std.specs.Prelude.{◌≡◌, ⊤, ℕ, ◌≤◌, Bool, true, List, length};
ghost use Rattle.bounded.specs.ArrayVecs.{items_of};
ghost use Rattle.text.specs.Bytes.{name_form, fits};
ghost use Rattle.text.specs.Paths.{path_form};

mod methods;

use crate::names::is_name_form;
use crate::paths::is_path_form;
use bounded::ArrayVec;
use std::alloc::AllocError;
use std::marker::PhantomData;

// What the bytes of a text are like, however many there are.
pub trait Form: Copy {
    ghost test: { List ℕ → Bool };

    fn accepts(s: &[u8]) -> bool
        ensures { result ≡ test s.now };
}

#[derive(Clone, Copy)]
pub struct NameForm;

#[derive(Clone, Copy)]
pub struct PathForm;

impl Form for NameForm {
    ghost test = { name_form };

    fn accepts(s: &[u8]) -> bool {
        is_name_form(s)
    }
}

impl Form for PathForm {
    ghost test = { path_form };

    fn accepts(s: &[u8]) -> bool {
        is_path_form(s)
    }
}

// A text of a form, which holds its bytes.
pub struct Formed<F: Form, const N: usize> {
    bytes: ArrayVec<u8, N>,
    form: PhantomData<F>,
    ghost formed: { fits N F.test (items_of bytes) ≡ true },
}

// By hand: at a type with a parameter and a ghost field a derive gets no proof.
impl<F: Form, const N: usize> Copy for Formed<F, N> {}

impl<F: Form, const N: usize> Clone for Formed<F, N> {
    ghost is_clone = { λ a b. b ≡ a };

    ghost is_infallible = { λ _. ⊤ };

    fn clone(&self) -> Result<Self, AllocError> {
        Ok(*self)
    }
}

// A name, of a host, an account, a group or a domain.
pub type Name = Formed<NameForm, 31>;

// The path of a file.
pub type Path = Formed<PathForm, 63>;
