// The table of a text, and whether the text has been read.
ghost use Rattle.std.specs.Prelude.{◌≡◌, false, is_ok};
ghost use Rattle.std.specs.Fn.{FnOnceReturnsAtMut};

use reading::TextFault;

// The table stands there unread too: its memory is taken when the host is made.
#[derive(Drop)]
pub struct TextTable<T> {
    pub table: T,
    pub read: bool,
}

impl<T> TextTable<T> {
    // A table whose text has not been read.
    pub fn unread(table: T) -> TextTable<T>
        ensures table { result.table ≡ table }
        ensures read { result.read ≡ false }
    {
        TextTable { table, read: false }
    }

    // Makes the text unread, and the table as on the first day.
    pub fn clear<F: FnOnce(&mut T)>(&mut self, clear: F)
        requires { F.IsAlwaysCallable clear }
        ensures table { FnOnceReturnsAtMut F.FnOnce clear self.old.table tt self.new.table }
        ensures read { self.new.read ≡ false }
    {
        clear(&mut self.table);
        self.read = false;
    }

    // Reads the text; it has then been read unless it is refused.
    pub fn read<F: FnOnce(&mut T) -> Result<(), TextFault>>(
        &mut self,
        read: F,
    ) -> Result<(), TextFault>
        requires { F.IsAlwaysCallable read }
        ensures table { FnOnceReturnsAtMut F.FnOnce read self.old.table result self.new.table }
        ensures read { self.new.read ≡ is_ok result }
    {
        let answer = read(&mut self.table);
        self.read = answer.is_ok();
        answer
    }
}
