// What is proved of the rules of a site, for calls and programs to rest on.
ghost use Rattle.allows.specs.Allows.{AllowedExactly};
ghost use Rattle.allows.specs.Hub.{HubSlots};

// The slots of every site hold what the rules allow over its tables, and nothing else.
pub fn allowed_exactly()
    ensures { AllowedExactly }
{}

// What the rules give in the worked example.
pub fn hub_slots()
    ensures { HubSlots }
{}
