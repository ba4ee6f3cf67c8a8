// What both layers do with their lists: an entry is put in at the end, once, and taken out from where it stands.
ghost use Rattle.std.specs.Prelude.{◌≡◌, ◌≤◌, [], ◌∷◌, ◌++◌, length, is_ok, position, if◌then◌else◌, nat_lt};
ghost use Rattle.std.specs.List.{list_any};
ghost use Rattle.layers.specs.Answers.{entering, leaving};
ghost use Rattle.layers.specs.Layers.{without};

use crate::refusal::Refusal;
use bounded::BoundedVec;

// Enters x at the end, unless it is there already or there is no room.
pub fn enter<T: Copy + Eq, const N: usize>(
    list: &mut BoundedVec<T, N>,
    x: T,
    room: usize,
) -> Result<(), Refusal>
    requires { room ≤ N }
    ensures answer { result ≡ entering (list_any (λ y. T.eq y x) list.old) (nat_lt (length list.old) room) }
    ensures after { list.new ≡ (if is_ok result then list.old ++ x ∷ [] else list.old) }
{
    let held = list.as_slice();
    if held.contains(&x) {
        return Err(Refusal::AlreadyThere);
    }
    if held.len() >= room {
        return Err(Refusal::NoRoom);
    }
    list.push(x)?;
    Ok(())
}

// Where x stands in the list.
fn place_of<T: Copy + Eq>(list: &[T], x: T) -> Option<usize>
    ensures { result ≡ position (λ y. T.eq y x) list.now }
{
    list.iter().position(|y| *y == x)
}

// Takes x out; later entries move down.
pub fn take_out<T: Copy + Eq, const N: usize>(
    list: &mut BoundedVec<T, N>,
    x: T,
) -> Result<(), Refusal>
    ensures answer { result ≡ leaving (list_any (λ y. T.eq y x) list.old) }
    ensures after { list.new ≡ (if is_ok result then without (λ y. T.eq y x) list.old else list.old) }
{
    let place = place_of(list.as_slice(), x).ok_or(Refusal::NotThere)?;
    list.remove(place);
    Ok(())
}
