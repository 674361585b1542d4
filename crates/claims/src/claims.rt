// The run claims.
ghost use Rattle.std.specs.Prelude.{◌≡◌, true};
ghost use Rattle.claims.specs.Claims.{MachineClaims, RunClaims};

use supply::supply::Supply;

// They hold at every moment of every history of a rig on a supply of this kind:
// for every machine that keeps its laws, and so for every round.
pub fn claims_hold<S: Supply>(supply: &S) -> bool
    ensures told { result ≡ true }
    ensures machines { MachineClaims S.Supply }
    ensures rounds { RunClaims S.Supply }
{
    true
}
