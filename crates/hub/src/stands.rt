ghost use Rattle.hub.specs.Hub.{HubStands};

// What the texts of the hub say, what its slots hold, and what follows for questions.
pub fn hub_stands()
    ensures { HubStands }
{}
