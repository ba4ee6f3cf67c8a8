ghost use Rattle.matrix.specs.Forms.{operation_form};
ghost use Rattle.matrix.specs.Printing.{operations_named};

use crate::table::Matrix;
use bounded::ArrayVec;
use print::put_number;
use rules::named::Named;

// `Operation` and the number.
impl Named for Matrix {
    ghost form = { operation_form };

    ghost named = { operations_named };

    fn print(&self, p: u16) -> ArrayVec<u8, 128> {
        let mut form = ArrayVec::new(0);
        if p >= self.count {
            return form;
        }
        form.add(b"Operation ");
        put_number(&mut form, p.into());
        form
    }
}
