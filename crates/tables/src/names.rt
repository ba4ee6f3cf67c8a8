// The names that an entry may not bear.
ghost use Rattle.std.specs.Prelude.{◌≡◌};
ghost use Rattle.region.specs.Sound.{reserved};

// Whether printed forms keep the name for themselves.
pub fn is_reserved(name: &[u8]) -> bool
    ensures { result ≡ reserved name.now }
{
    matches!(name, b"any" | b"all")
}
