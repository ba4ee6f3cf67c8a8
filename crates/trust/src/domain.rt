// Reads yp.conf: at most one line, `domain`, the domain's name, `server`, and the name of a host.
ghost use Rattle.std.specs.Prelude.{◌≡◌, true, length, IfSome, is_ok, None, Option};
ghost use Rattle.std.specs.Option.{option_map, option_to_list};
ghost use Rattle.text.specs.Cuts.{words};
ghost use Rattle.region.specs.Tables.{DomainEntry};
ghost use Rattle.reading.specs.Reads.{entry_lines, ok_mapped, text_told, value_or};
ghost use Rattle.reading.specs.declared.fault.Kind.TheVariants.{Ypconf};
ghost use Rattle.tables.specs.HostsText.{hosts_of};
ghost use Rattle.trust.specs.Rows.{domain_entry};
ghost use Rattle.trust.specs.Formed.{DomainFormed};
ghost use Rattle.trust.specs.DomainText.{domain_words, four_words, domain_of, domain_line_in, domain_step, domain_in};

use reading::{Kind, Refusal, Table, TextFault, is_passed_over, read_text};
use tables::HostNames;
use text::{Name, is_name, words};

// A domain, and the place of its server among the hosts.
#[derive(Clone, Copy)]
pub struct Domain {
    pub name: Name,
    pub server: u8,
}

#[derive(Clone, Copy)]
struct Words<'a> {
    first: &'a [u8],
    name: &'a [u8],
    third: &'a [u8],
    server: &'a [u8],
}

// The words of a line that has four.
fn words_of<'a>(line: &'a [u8]) -> Option<Words<'a>>
    ensures { option_map domain_words result ≡ four_words (words line.now) }
{
    let mut parts = words(line);
    let first = parts.next()?;
    let name = parts.next()?;
    let third = parts.next()?;
    let server = parts.next()?;
    if parts.next().is_some() {
        return None;
    }
    Some(Words {
        first,
        name,
        third,
        server,
    })
}

fn domain_of(hosts: &HostNames, line: &[u8]) -> Result<Domain, Refusal>
    ensures { ok_mapped domain_entry result ≡ domain_line_in (hosts_of hosts.now) line.now }
{
    let found = words_of(line).ok_or(Refusal::Fields)?;
    if found.first != b"domain".as_slice() || found.third != b"server".as_slice() {
        return Err(Refusal::NotCovered);
    }
    let name = Name::new(found.name).ok_or(Refusal::BadName)?;
    if !is_name(found.server) {
        return Err(Refusal::BadName);
    }
    let server = hosts.place_of(found.server).ok_or(Refusal::Unknown)?;
    Ok(Domain {
        name,
        server: server as u8,
    })
}

// The domain while it is read.
#[derive(Drop)]
struct Found {
    domain: Option<Domain>,
}

impl Table for Found {
    type Beside = HostNames;

    ghost Seen = { Option DomainEntry };

    ghost seen = { λ t. domain_of t.domain };

    ghost first = { None };

    ghost step = { λ hosts found l. domain_step (hosts_of hosts) found l };

    fn clear(&mut self) {
        self.domain = None;
    }

    fn line(&mut self, hosts: &HostNames, line: &[u8]) -> Result<(), Refusal> {
        if is_passed_over(line) {
            return Ok(());
        }
        let domain = domain_of(hosts, line)?;
        if self.domain.is_some() {
            return Err(Refusal::Full);
        }
        self.domain = Some(domain);
        Ok(())
    }
}

// Puts the domain of a yp.conf in place of the one given; a text that names none, or is refused, leaves none.
pub fn read_domain(
    hosts: &HostNames,
    domain: &mut Option<Domain>,
    text: &[u8],
) -> Result<(), TextFault>
    ensures told { result ≡ text_told Ypconf (domain_in (hosts_of hosts.now) text.now) }
    ensures held { domain_of domain.new ≡ value_or None (domain_in (hosts_of hosts.now) text.now) }
    ensures formed { IfSome (domain_of domain.new) (DomainFormed (hosts_of hosts.now)) }
    ensures counted { is_ok result ≡ true → length (option_to_list (domain_of domain.new)) ≡ length (entry_lines text.now) }
{
    let mut found = Found { domain: None };
    let read = read_text(Kind::Ypconf, &mut found, hosts, text);
    *domain = found.domain;
    read
}
