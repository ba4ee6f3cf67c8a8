ghost use Rattle.forms.specs.Printed.{SiteWellNamed};

// The forms of every site: 1 to 128 bytes for a live privilege, none for a dead one, and no two live ones alike.
pub fn well_named()
    ensures { SiteWellNamed }
{}
