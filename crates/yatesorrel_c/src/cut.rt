// A cut of a rig from C.
ghost use Rattle.std.specs.Prelude.{◌≡◌};
ghost use Rattle.claims.specs.Rig.{Rig};
ghost use Rattle.machine.specs.declared.state.State.{State};
ghost use Rattle.supply.specs.declared.source.Source.{Source};
ghost use Rattle.yatesorrel_c.specs.declared.told.Own.TheVariants.{NotBegun};
ghost use Rattle.yatesorrel_c.specs.Told.{own_told};
ghost use Rattle.yatesorrel_c.specs.Held.{plain_rig, Whole, Unbegun};
ghost use Rattle.yatesorrel_c.specs.Cut.{CutTold};

use crate::held::PlainRig;
use crate::supplies::PlainSupply;
use crate::told::{Own, PlainTold};

// Cuts the supply.
#[unsafe(no_mangle)]
pub extern "C" fn yatesorrel_rig_cut(rig: &mut PlainRig) -> PlainTold
    ensures unbegun { Unbegun rig.old → (result ≡ own_told NotBegun) × (rig.new ≡ rig.old) }
    ensures cut { (r : Rig Source State) → Whole r → rig.old ≡ plain_rig r → CutTold r rig.new result }
{
    let Some(mut source) = rig.source() else {
        return PlainTold::own(Own::NotBegun);
    };
    let answer = rig.standing.cut(&mut source);
    rig.supply = PlainSupply::of(&source);
    PlainTold::of(answer.err())
}
