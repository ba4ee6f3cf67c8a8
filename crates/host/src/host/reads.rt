// A host's texts are read in their turns, each once until the host is cleared.
ghost use Rattle.std.specs.Prelude.{◌≡◌};
ghost use Rattle.tables.specs.HostsText.{hosts_of};
ghost use Rattle.host.specs.Tables.{host_tables};
ghost use Rattle.host.specs.Reads.{passwd_answer, passwd_after, group_answer, group_after, mtree_answer, mtree_after, equiv_answer, equiv_after, ypconf_answer, ypconf_after, rhosts_answer, rhosts_after};

use super::Host;
use crate::turn::in_turn;
use listing::read_files;
use reading::{Kind, Refusal, TextFault};
use tables::{HostNames, read_accounts, read_groups};
use trust::{read_domain, read_equiv, read_rhosts};

impl Host {
    // Reads the accounts.
    pub fn read_passwd(&mut self, text: &[u8]) -> Result<(), TextFault>
        ensures told { result ≡ passwd_answer (host_tables self.old) text.now }
        ensures held { host_tables self.new ≡ passwd_after (host_tables self.old) text.now }
    {
        in_turn(Kind::Passwd, text, !self.accounts.read)?;
        self.accounts.read(|accounts| read_accounts(accounts, text))
    }

    // Reads the groups, whose members are looked up among the accounts.
    pub fn read_group(&mut self, text: &[u8]) -> Result<(), TextFault>
        ensures told { result ≡ group_answer (host_tables self.old) text.now }
        ensures held { host_tables self.new ≡ group_after (host_tables self.old) text.now }
    {
        in_turn(Kind::Group, text, self.accounts.read && !self.groups.read)?;
        let accounts = &self.accounts.table;
        self.groups
            .read(|groups| read_groups(accounts, groups, text))
    }

    // Reads the listing of the files.
    pub fn read_mtree(&mut self, text: &[u8]) -> Result<(), TextFault>
        ensures told { result ≡ mtree_answer (host_tables self.old) text.now }
        ensures held { host_tables self.new ≡ mtree_after (host_tables self.old) text.now }
    {
        in_turn(Kind::Mtree, text, !self.files.read)?;
        self.files.read(|files| read_files(files, text))
    }

    // Reads the lines of hosts.equiv.
    pub fn read_equiv(&mut self, text: &[u8]) -> Result<(), TextFault>
        ensures told { result ≡ equiv_answer (host_tables self.old) text.now }
        ensures held { host_tables self.new ≡ equiv_after (host_tables self.old) text.now }
    {
        in_turn(Kind::Equiv, text, !self.equiv.read)?;
        self.equiv.read(|lines| read_equiv(lines, text))
    }

    // Reads the domain of yp.conf, whose server is looked up among the names of the hosts.
    pub fn read_ypconf(&mut self, names: &HostNames, text: &[u8]) -> Result<(), TextFault>
        ensures told { result ≡ ypconf_answer (hosts_of names.now) (host_tables self.old) text.now }
        ensures held { host_tables self.new ≡ ypconf_after (hosts_of names.now) (host_tables self.old) text.now }
    {
        in_turn(Kind::Ypconf, text, !self.domain.read)?;
        self.domain.read(|domain| read_domain(names, domain, text))
    }

    // Reads the .rhosts of an account.
    pub fn read_rhosts(&mut self, account: usize, text: &[u8]) -> Result<(), TextFault>
        ensures told { result ≡ rhosts_answer account (host_tables self.old) text.now }
        ensures held { host_tables self.new ≡ rhosts_after account (host_tables self.old) text.now }
    {
        in_turn(
            Kind::Rhosts,
            text,
            self.accounts.read && !self.has_rhosts(account),
        )?;
        if account >= self.account_count() {
            return Err(TextFault::of_text(Kind::Rhosts, Refusal::Unknown));
        }
        self.rhosts[account].read(|lines| read_rhosts(lines, text))
    }
}
