ghost use Rattle.std.specs.Prelude.{◌≡◌, ◌*◌, ◌≤◌, vec_len};

// A cell for each pair of operations: the row is the granted one, the column the granting one.
#[derive(Drop)]
pub struct Matrix {
    pub(crate) count: u16,
    pub(crate) cells: Vec<bool>,
    ghost few: { count ≤ 256 },
    ghost square: { vec_len cells ≡ count * count },
}
