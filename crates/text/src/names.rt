// What a name is.
ghost use Rattle.std.specs.Prelude.{◌≡◌};
ghost use Rattle.std.specs.List.{list_all};
ghost use Rattle.text.specs.Bytes.{name_byte, name_form, name};

// Whether a name may hold the byte.
fn is_name_byte(b: u8) -> bool
    ensures { result ≡ name_byte b }
{
    match b as char {
        ':' | ',' | '/' | '\\' => false,
        '!'..='~' => true,
        _ => false,
    }
}

fn are_name_bytes(s: &[u8]) -> bool
    ensures { result ≡ list_all name_byte s.now }
{
    s.iter().all(|b| is_name_byte(*b))
}

// What a name is like: its bytes are such, and the first is no plus, minus or number sign.
pub(crate) fn is_name_form(s: &[u8]) -> bool
    ensures { result ≡ name_form s.now }
{
    let [first, ..] = s else {
        return false;
    };
    match *first as char {
        '+' | '-' | '#' => false,
        _ => are_name_bytes(s),
    }
}

// A name: 1 to 31 bytes.
pub fn is_name(s: &[u8]) -> bool
    ensures { result ≡ name s.now }
{
    s.len() <= 31 && is_name_form(s)
}
