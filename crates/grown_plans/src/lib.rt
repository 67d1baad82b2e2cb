// Growing, ordering, remapping and laying out, one after the other: a plan that opens, of every matrix and seed that growing accepts.
#![tactic(auto)]

ghost use Rattle.grown_plans.specs.Grown.{GrownPasses, GrownIsLawful, GrownOpens};

// Each call on the way accepts what the one before it has made.
pub fn grown_passes()
    ensures { GrownPasses }
{}

// The tile table that is grown and renumbered is lawful.
pub fn grown_is_lawful()
    ensures { GrownIsLawful }
{}

// Opening accepts what is laid out for it.
pub fn grown_opens()
    ensures { GrownOpens }
{}
