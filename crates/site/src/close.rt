// An open site that wants no text more is closed.
ghost use Rattle.std.specs.Prelude.{◌≡◌, ◌≤◌, true, map, length, is_ok, Err, MatchResult};
ghost use Rattle.host.specs.Tables.{host_tables};
ghost use Rattle.site.specs.Models.{open_model};
ghost use Rattle.site.specs.Closed.{closed_model};
ghost use Rattle.site.specs.Checks.{missing, checked};
ghost use Rattle.site.specs.Closing.{Closes};

use crate::closed::ClosedSite;
use crate::open::OpenSite;
use host::Host;
use reading::{Kind, Refusal, SiteFault, TextFault};

// A text that is wanted and has not been read.
fn missing(host: u8, kind: Kind) -> SiteFault
    ensures { result ≡ missing host kind }
{
    SiteFault::from((host, TextFault::of_text(kind, Refusal::Unread)))
}

fn check_hosts(hosts: &[Host]) -> Result<(), SiteFault>
    requires { length hosts.now ≤ 8 }
    ensures { result ≡ checked (map host_tables hosts.now) }
{
    if hosts.is_empty() {
        return Err(missing(0, Kind::Hosts));
    }
    for (i, host) in hosts.iter().enumerate() {
        if let Some(kind) = host.first_unread() {
            return Err(missing(i as u8, kind));
        }
    }
    Ok(())
}

impl OpenSite {
    // Refuses where the site may not be closed: it has no host, or a text that is wanted has not been read.
    pub fn check(&self) -> Result<(), SiteFault>
        ensures { result ≡ checked (open_model self.now).hosts }
    {
        check_hosts(self.hosts())
    }

    // Closes a site that the check would not refuse.
    pub fn close(self) -> ClosedSite
        requires { is_ok (checked (open_model self).hosts) ≡ true }
        ensures { Closes (open_model self) (closed_model result) }
    {
        ClosedSite { site: self }
    }
}

// Closes a site, or gives it back with what the check says.
pub fn try_close(site: OpenSite) -> Result<ClosedSite, (OpenSite, SiteFault)>
    ensures { MatchResult result (λ s. Closes (open_model site) (closed_model s)) (λ e. (open_model e.0 ≡ open_model site) × (checked (open_model site).hosts ≡ Err e.1)) }
{
    match site.check() {
        Ok(()) => Ok(site.close()),
        Err(fault) => Err((site, fault)),
    }
}
