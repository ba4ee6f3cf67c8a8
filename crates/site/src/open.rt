// A site that takes texts.
ghost use Rattle.std.specs.Prelude.{◌≡◌, map, length, take};
ghost use Rattle.tables.specs.HostsText.{hosts_of};
ghost use Rattle.host.specs.Tables.{host_tables};

mod hosts;
mod reads;

use host::{Host, TextTable};
use tables::HostNames;

// The memory of 8 hosts is taken when the site is made: the first of them have the names that the hosts text gives, and the others are spare.
#[derive(Drop)]
pub struct OpenSite {
    pub(crate) names: TextTable<HostNames>,
    hosts: [Host; 8],
    ghost named: { map (λ t. t.name) (take (length (hosts_of names.table)) (map host_tables hosts)) ≡ hosts_of names.table },
}
