// A closed site shows its hosts, and is opened again.
ghost use Rattle.std.specs.Prelude.{◌≡◌, ◌≤◌, map, length};
ghost use Rattle.host.specs.Tables.{host_tables};
ghost use Rattle.site.specs.Models.{open_model};
ghost use Rattle.site.specs.Closed.{closed_model};

use super::ClosedSite;
use crate::open::OpenSite;
use host::Host;

impl ClosedSite {
    // The hosts, by the numbers that the hosts text gives them.
    pub fn hosts(&self) -> &[Host]
        ensures entries { map host_tables result.now ≡ (closed_model self.now).hosts }
        ensures few { length result.now ≤ 8 }
    {
        self.site.hosts()
    }

    // Opens the site again.
    pub fn reopen(self) -> OpenSite
        ensures { open_model result ≡ closed_model self }
    {
        let ClosedSite { site } = self;
        site
    }
}
