// A closed site as a rule source.
ghost use Rattle.std.specs.Prelude.{◌≡◌, ◌<◌, ◌≤◌};
ghost use Rattle.allows.specs.Lawful.{site-lawful};
ghost use Rattle.allows.specs.Source.{site_rules};
ghost use Rattle.site.specs.Closed.{closed_model};

use super::ClosedSite;
use grants::{is_live, live_slot};
use region::ROOT_ANYWHERE;
use rules::source::RuleSource;

impl RuleSource for ClosedSite {
    ghost meaning = { λ s. site_rules (closed_model s).hosts };

    ghost lawful = { λ s. site-lawful (closed_model s).hosts };

    fn count(&self) -> u16 {
        1417
    }

    fn width(&self) -> u16 {
        140
    }

    fn live(&self, p: u16) -> bool {
        is_live(self.hosts(), p)
    }

    fn place(&self, p: u16) -> u8 {
        if p <= ROOT_ANYWHERE {
            (p / 177) as u8
        } else {
            0
        }
    }

    fn slot(&self, g: u16, k: u16) -> Option<(u16, u8)> {
        live_slot(self.hosts(), g, k)
    }
}
