// The helpers that a round can call.
ghost use Rattle.std.specs.Prelude.{◌≡◌};
ghost use Rattle.isa.specs.Helper.{helper_of};

#[derive(Clone, Copy, PartialEq, Eq)]
pub enum Helper {
    // keeps the state
    Save,
    // puts the next reading into r0
    NextReading,
    // appends a record to the log
    Record,
}

// The helper that the imm of a CALL names, or none.
// Stays: a TryFrom needs an error type of its own, which every caller would drop by `.ok()`.
pub fn helper_of(imm: i32) -> Option<Helper>
    ensures { result ≡ helper_of imm }
{
    match imm {
        1 => Some(Helper::Save),
        2 => Some(Helper::NextReading),
        3 => Some(Helper::Record),
        _ => None,
    }
}
