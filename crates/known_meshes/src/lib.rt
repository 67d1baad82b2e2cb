// The known meshes, over the definitions that the contracts of all layers speak of.
#![tactic(auto)]

ghost use Rattle.known_meshes.specs.Meshes.{KnownMeshes};

// Each known mesh comes out of the definitions as it should, from its tiles to its values.
pub fn known_meshes()
    ensures { KnownMeshes }
{}
