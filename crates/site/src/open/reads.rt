// The texts of hosts are read, and hosts are cleared.
ghost use Rattle.std.specs.Prelude.{◌≡◌, Ok};
ghost use Rattle.reading.specs.declared.fault.Kind.TheVariants.{Hosts as HostsKind, Passwd as PasswdKind, Group as GroupKind, Mtree as MtreeKind, Equiv as EquivKind, Ypconf as YpconfKind, Rhosts as RhostsKind};
ghost use Rattle.host.specs.Reads.{passwd_answer, passwd_after, group_answer, group_after, mtree_answer, mtree_after, equiv_answer, equiv_after, ypconf_answer, ypconf_after, rhosts_answer, rhosts_after};
ghost use Rattle.site.specs.Calls.{AnswersBy, LeavesBy, KeepsName};
ghost use Rattle.site.specs.Models.{open_model, site_names, host_answer, host_after, cleared};

use super::OpenSite;
use host::Host;
use reading::{Kind, Refusal, SiteFault, TextFault, at};
use tables::HostNames;

impl OpenSite {
    // Does one thing to the host of a number, which has to be there; the host itself does not know its number.
    fn with_host<F: FnOnce(&mut Host, &HostNames) -> Result<(), TextFault>>(
        &mut self,
        host: u8,
        kind: Kind,
        act: F,
    ) -> Result<(), SiteFault>
        requires may { F.IsAlwaysCallable act }
        requires keeps { KeepsName F.FnOnce act self.old.names.table }
        ensures told { (answer : _) → AnswersBy F.FnOnce act self.old.names.table answer → result ≡ host_answer kind host answer (open_model self.old) }
        ensures held { (after : _) → LeavesBy F.FnOnce act self.old.names.table after → open_model self.new ≡ host_after host after (open_model self.old) }
    {
        let place = host as usize;
        if place >= self.hosts().len() {
            return Err(SiteFault::from((host, TextFault::of_text(kind, Refusal::Unknown))));
        }
        at(host, act(&mut self.hosts[place], &self.names.table))?;
        Ok(())
    }

    // Reads the passwd text of a host.
    pub fn read_passwd(&mut self, host: u8, text: &[u8]) -> Result<(), SiteFault>
        ensures told { result ≡ host_answer PasswdKind host (λ t. passwd_answer t text.now) (open_model self.old) }
        ensures held { open_model self.new ≡ host_after host (λ t. passwd_after t text.now) (open_model self.old) }
    {
        self.with_host(host, Kind::Passwd, |found, _| found.read_passwd(text))
    }

    // Reads the group text of a host.
    pub fn read_group(&mut self, host: u8, text: &[u8]) -> Result<(), SiteFault>
        ensures told { result ≡ host_answer GroupKind host (λ t. group_answer t text.now) (open_model self.old) }
        ensures held { open_model self.new ≡ host_after host (λ t. group_after t text.now) (open_model self.old) }
    {
        self.with_host(host, Kind::Group, |found, _| found.read_group(text))
    }

    // Reads the listing of a host's files.
    pub fn read_mtree(&mut self, host: u8, text: &[u8]) -> Result<(), SiteFault>
        ensures told { result ≡ host_answer MtreeKind host (λ t. mtree_answer t text.now) (open_model self.old) }
        ensures held { open_model self.new ≡ host_after host (λ t. mtree_after t text.now) (open_model self.old) }
    {
        self.with_host(host, Kind::Mtree, |found, _| found.read_mtree(text))
    }

    // Reads the hosts.equiv of a host.
    pub fn read_equiv(&mut self, host: u8, text: &[u8]) -> Result<(), SiteFault>
        ensures told { result ≡ host_answer EquivKind host (λ t. equiv_answer t text.now) (open_model self.old) }
        ensures held { open_model self.new ≡ host_after host (λ t. equiv_after t text.now) (open_model self.old) }
    {
        self.with_host(host, Kind::Equiv, |found, _| found.read_equiv(text))
    }

    // Reads the yp.conf of a host.
    pub fn read_ypconf(&mut self, host: u8, text: &[u8]) -> Result<(), SiteFault>
        ensures told { result ≡ host_answer YpconfKind host (λ t. ypconf_answer (site_names (open_model self.old)) t text.now) (open_model self.old) }
        ensures held { open_model self.new ≡ host_after host (λ t. ypconf_after (site_names (open_model self.old)) t text.now) (open_model self.old) }
    {
        self.with_host(
            host,
            Kind::Ypconf,
            |found, names| found.read_ypconf(names, text),
        )
    }

    // Reads the .rhosts of an account of a host.
    pub fn read_rhosts(&mut self, host: u8, account: u8, text: &[u8]) -> Result<(), SiteFault>
        ensures told { result ≡ host_answer RhostsKind host (λ t. rhosts_answer account t text.now) (open_model self.old) }
        ensures held { open_model self.new ≡ host_after host (λ t. rhosts_after account t text.now) (open_model self.old) }
    {
        self.with_host(
            host,
            Kind::Rhosts,
            |found, _| found.read_rhosts(account as usize, text),
        )
    }

    // Makes a host's texts unread and their tables as on the first day.
    pub fn clear_host(&mut self, host: u8) -> Result<(), SiteFault>
        ensures told { result ≡ host_answer HostsKind host (λ _. Ok tt) (open_model self.old) }
        ensures held { open_model self.new ≡ host_after host cleared (open_model self.old) }
    {
        self.with_host(host, Kind::Hosts, |found, _| {
            found.clear();
            Ok(())
        })
    }
}
