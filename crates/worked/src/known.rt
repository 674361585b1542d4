// The rounds that customers know by heart, as one list.
ghost use Rattle.std.specs.Prelude.{◌≡◌, true, ◌∷◌};
ghost use Rattle.certifier.specs.Example.{AnswersKnown};
ghost use Rattle.placer.specs.Example.{PlacementsKnown};
ghost use Rattle.claims.specs.declared.call.Call.TheVariants.{Step, Cut};
ghost use Rattle.worked.specs.Known.{Known, steps};

// The definitions give what is known: what the certifier answers, what the
// placer does, and the counts of a rig, straight on and with a cut after two
// steps.
pub fn rounds_are_known() -> bool
    ensures told { result ≡ true }
    ensures certified { AnswersKnown }
    ensures placed { PlacementsKnown }
    ensures straight { Known (steps 7) 2 1 7 }
    ensures interrupted { Known (Step ∷ Step ∷ Cut ∷ steps 7) 3 1 9 }
{
    true
}
