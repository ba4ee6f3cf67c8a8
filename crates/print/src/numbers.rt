// Numbers in decimal digits.
ghost use Rattle.bounded.specs.ArrayVecs.{items_of, Added};
ghost use Rattle.std.specs.Prelude.{decimal};

use bounded::ArrayVec;
use itoa::Buffer;

// Adds the decimal digits of a number.
pub fn put_number<const N: usize>(out: &mut ArrayVec<u8, N>, n: u32)
    ensures { Added N (items_of out.old) (decimal n) (items_of out.new) }
{
    out.add(Buffer::new().format(n).as_bytes());
}
