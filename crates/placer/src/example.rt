// A round whose placements are known.
ghost use Rattle.std.specs.Prelude.{◌≡◌, true};
ghost use Rattle.placer.specs.Example.{PlacementsKnown};

// The definition gives the placements that are known.
pub fn placements_are_known() -> bool
    ensures told { result ≡ true }
    ensures known { PlacementsKnown }
{
    true
}
