// A site is made, and the hosts text names its hosts.
ghost use Rattle.std.specs.Prelude.{◌≡◌, ◌≤◌, map, length, take, IfOk, vec_len};
ghost use Rattle.text.specs.Kept.{name_bytes};
ghost use Rattle.reading.specs.declared.fault.Kind.TheVariants.{Hosts as HostsKind};
ghost use Rattle.tables.specs.HostsText.{hosts_in};
ghost use Rattle.host.specs.Tables.{host_tables, unread_tables};
ghost use Rattle.host.specs.Reads.{answered};
ghost use Rattle.site.specs.Models.{open_model, unread_site, hosts_turn, hosts_answer, hosts_after};

use super::OpenSite;
use host::{Host, TextTable, in_turn};
use reading::{Kind, SiteFault, TextFault, at};
use std::alloc::{AllocError, Global};
use std::array;
use tables::{HostNames, read_hosts};
use text::Name;

// Room for 8 hosts; what they are called does not matter before they are named.
fn spare_hosts(heap: Global) -> Result<[Host; 8], AllocError> {
    let Some(name) = Name::new(b"spare") else {
        unreachable()
    };
    array::try_from_fn(|_| Host::new(heap, name))
}

// Gives the first hosts these names; they are then as on the first day.
fn begin_hosts(hosts: &mut [Host; 8], names: &[Name])
    requires { length names.now ≤ 8 }
    ensures { take (length names.now) (map host_tables hosts.new) ≡ map unread_tables (map name_bytes names.now) }
{
    // By places: of a list that is gone over by iter_mut().zip(..), a proof knows only how long it is.
    for (i, name) in names.iter().enumerate() {
        hosts[i].begin(*name);
    }
}

impl OpenSite {
    // A site with room for all that its texts may say, none of which has been read.
    pub fn new(heap: Global) -> Result<OpenSite, AllocError>
        ensures { IfOk result (λ s. open_model s ≡ unread_site) }
    {
        let names = TextTable::unread(HostNames::new(heap)?);
        let hosts = spare_hosts(heap)?;
        Ok(OpenSite { names, hosts })
    }

    // The hosts, by the numbers that the hosts text gives them.
    pub fn hosts(&self) -> &[Host]
        ensures entries { map host_tables result.now ≡ (open_model self.now).hosts }
        ensures few { length result.now ≤ 8 }
    {
        let count = self.names.table.as_slice().len();
        &self.hosts[..count]
    }

    fn name_hosts(&mut self, text: &[u8]) -> Result<(), TextFault>
        ensures told { result ≡ answered HostsKind text.now (hosts_turn (open_model self.old)) (hosts_in text.now) }
        ensures held { open_model self.new ≡ hosts_after (open_model self.old) text.now }
    {
        in_turn(Kind::Hosts, text, !self.names.read)?;
        self.names.read(|names| read_hosts(names, text))?;
        begin_hosts(&mut self.hosts, self.names.table.as_slice());
        Ok(())
    }

    // Reads the hosts text, which names the hosts.
    pub fn read_hosts(&mut self, text: &[u8]) -> Result<(), SiteFault>
        ensures told { result ≡ hosts_answer (open_model self.old) text.now }
        ensures held { open_model self.new ≡ hosts_after (open_model self.old) text.now }
    {
        at(0, self.name_hosts(text))?;
        Ok(())
    }
}
