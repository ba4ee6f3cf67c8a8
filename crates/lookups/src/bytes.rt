// Paths that are put together from parts, compared part by part.
ghost use Rattle.std.specs.Prelude.{◌≡◌, ◌++◌};
ghost use Rattle.std.specs.Str.{bytes_eq};

// Whether a path is the front and then the back.
pub fn joins(path: &[u8], front: &[u8], back: &[u8]) -> bool
    ensures { result ≡ bytes_eq path.now (front.now ++ back.now) }
{
    path.strip_suffix(back) == Some(front)
}

// Whether a path is three parts in turn.
pub fn joins_three(path: &[u8], a: &[u8], b: &[u8], c: &[u8]) -> bool
    ensures { result ≡ bytes_eq path.now (a.now ++ (b.now ++ c.now)) }
{
    path.strip_prefix(a).is_some_and(|rest| joins(rest, b, c))
}
