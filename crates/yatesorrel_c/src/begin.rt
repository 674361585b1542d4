// A rig begun from C.
ghost use Rattle.std.specs.Prelude.{◌≡◌};
ghost use Rattle.claims.specs.Claims.{RunClaims};
ghost use Rattle.supply.specs.declared.source.Source.{Source};
ghost use Rattle.yatesorrel_c.specs.declared.told.Own.TheVariants.{NotBegun};
ghost use Rattle.yatesorrel_c.specs.Told.{own_told};
ghost use Rattle.yatesorrel_c.specs.Supplies.{plain_supply, Unmade};
ghost use Rattle.yatesorrel_c.specs.Held.{RigsTold, sources};
ghost use Rattle.yatesorrel_c.specs.Begin.{RigBegun};

use crate::held::PlainRig;
use crate::supplies::PlainSupply;
use crate::told::{Own, PlainTold};
use rig::rig::Rig;

// Begins a rig on a supply, new or used. The run claims hold of every history of
// its calls.
#[unsafe(no_mangle)]
#[tactic(auto, using(crate::proofs::Telling::one_rig))]
pub extern "C" fn yatesorrel_rig_begin(rig: &mut PlainRig, supply: &PlainSupply) -> PlainTold
    ensures unmade { Unmade supply.now → (result ≡ own_told NotBegun) × (rig.new ≡ rig.old) }
    ensures begun { (s : Source) → supply.now ≡ plain_supply s → RigBegun s rig.new result }
    ensures tells { RigsTold }
    ensures claimed { RunClaims sources }
{
    let Some(source) = supply.source() else {
        return PlainTold::own(Own::NotBegun);
    };
    *rig = PlainRig::of(Rig::begin(source));
    PlainTold::of(None)
}
