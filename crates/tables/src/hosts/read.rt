// Reads a hosts text: an address, then a host's name; what follows on the line, and what follows a number sign, is passed over.
ghost use Rattle.std.specs.Prelude.{◌≡◌, ℕ, ◌<◌, true, List, [], map, length, IfSome, is_ok, IfOk};
ghost use Rattle.std.specs.Option.{option_map};
ghost use Rattle.text.specs.Kept.{name_bytes};
ghost use Rattle.region.specs.Sound.{OwnName};
ghost use Rattle.reading.specs.Reads.{entry_lines, ok_mapped, text_told, value_or};
ghost use Rattle.reading.specs.declared.fault.Kind.TheVariants.{Hosts};
ghost use Rattle.tables.specs.Rows.{HostNamesSound};
ghost use Rattle.tables.specs.HostsText.{hosts_of, host_word, host_in, host_place, host_step, hosts_in};

use super::HostNames;
use crate::names::is_reserved;
use reading::{Kind, Refusal, Table, TextFault, is_passed_over, read_text};
use text::{Mark, Name, cut, words};

// The second word of a line, without its comment.
fn host_word<'a>(line: &'a [u8]) -> Option<&'a [u8]>
    ensures { option_map (λ x. x.now) result ≡ host_word line.now }
{
    let (entry, _comment) = cut(line, Mark::Hash);
    words(entry).nth(1)
}

fn host_of(line: &[u8]) -> Result<Name, Refusal>
    ensures value { ok_mapped name_bytes result ≡ host_in line.now }
    ensures formed { IfOk result (λ h. OwnName (name_bytes h)) }
{
    let word = host_word(line).ok_or(Refusal::Fields)?;
    if is_reserved(word) {
        return Err(Refusal::NotCovered);
    }
    let name = Name::new(word).ok_or(Refusal::BadName)?;
    Ok(name)
}

impl Table for HostNames {
    type Beside = ();

    ghost Seen = { List (List ℕ) };

    ghost seen = { λ t. hosts_of t };

    ghost first = { [] };

    ghost step = { λ _ rows l. host_step rows l };

    fn clear(&mut self) {
        self.rows.clear();
    }

    fn line(&mut self, _beside: &(), line: &[u8]) -> Result<(), Refusal> {
        if is_passed_over(line) {
            return Ok(());
        }
        let host = host_of(line)?;
        if self.place_of(host.as_slice()).is_some() {
            return Err(Refusal::Given);
        }
        self.rows.push(host)?;
        Ok(())
    }
}

// Puts the names of a hosts text in place of those in the table; a text that is refused leaves it empty.
pub fn read_hosts(hosts: &mut HostNames, text: &[u8]) -> Result<(), TextFault>
    ensures told { result ≡ text_told Hosts (hosts_in text.now) }
    ensures held { hosts_of hosts.new ≡ value_or [] (hosts_in text.now) }
    ensures sound { HostNamesSound (hosts_of hosts.new) }
    ensures counted { is_ok result ≡ true → length (hosts_of hosts.new) ≡ length (entry_lines text.now) }
{
    read_text(Kind::Hosts, hosts, &(), text)
}
