// Which privilege a printed line names.
ghost use Rattle.std.specs.Prelude.{◌≡◌, ◌&&◌};
ghost use Rattle.std.specs.Str.{bytes_eq};
ghost use Rattle.print.specs.Forms.{PrintedBy};

use rules::named::Named;
use rules::source::RuleSource;

// Whether p is live and prints the line.
fn prints<S: Named>(source: &S, p: u16, line: &[u8]) -> bool
    ensures { result ≡ (S.RuleSource.meaning source.now).live p && bytes_eq (S.form source.now p) line.now }
{
    source.live(p) && source.print(p).as_slice() == line
}

// The live privilege that prints the line, if one does.
pub fn privilege_of<S: Named>(source: &S, line: &[u8]) -> Option<u16>
    ensures { PrintedBy (S.RuleSource.meaning source.now) (S.form source.now) line.now result }
{
    (0..source.count()).find(|p| prints(source, *p, line))
}
