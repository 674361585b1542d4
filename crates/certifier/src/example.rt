// Rounds whose answers are known.
ghost use Rattle.std.specs.Prelude.{◌≡◌, true};
ghost use Rattle.certifier.specs.Example.{AnswersKnown};

// The definition gives the answers that are known.
pub fn answers_are_known() -> bool
    ensures told { result ≡ true }
    ensures known { AnswersKnown }
{
    true
}
