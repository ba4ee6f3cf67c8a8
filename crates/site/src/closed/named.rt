// A closed site prints its privileges.
ghost use Rattle.forms.specs.Printed.{form_of};
ghost use Rattle.site.specs.Closed.{closed_model};
ghost use Rattle.forms.proofs.Named.{site_well_named};
ghost use Rattle.site.specs.Sounds.{site-sound};

use super::ClosedSite;
use bounded::ArrayVec;
use host_forms::print_form;
use rules::named::Named;

impl Named for ClosedSite {
    ghost form = { λ s. form_of (closed_model s).hosts };

    ghost named = { λ s. site_well_named (closed_model s).hosts (site-sound s.site) };

    fn print(&self, p: u16) -> ArrayVec<u8, 128> {
        print_form(self.hosts(), p)
    }
}
