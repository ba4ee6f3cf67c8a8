// A site that answers questions.
ghost use Rattle.std.specs.Prelude.{◌≡◌, true, is_ok};
ghost use Rattle.site.specs.Models.{open_model};
ghost use Rattle.site.specs.Checks.{checked};

mod methods;
pub mod named;
pub mod source;

use crate::open::OpenSite;

// A site that wants no text more.
#[derive(Drop)]
pub struct ClosedSite {
    pub(crate) site: OpenSite,
    ghost whole: { is_ok (checked (open_model site).hosts) ≡ true },
}
