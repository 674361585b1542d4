// A round, and the machine that it is.
ghost use Rattle.std.specs.Prelude.{◌≡◌, true};
ghost use Rattle.claims.specs.Round.{RoundObeys};

// A price model, an image and a tape.
#[derive(Clone, Copy)]
pub struct Round<'a, M> {
    pub model: &'a M,
    pub image: &'a [u8],
    pub tape: &'a [u32],
}

// The machine of a round keeps the laws of a machine, where the model keeps its
// own and the image is lawful.
pub fn rounds_obey() -> bool
    ensures told { result ≡ true }
    ensures obeys { RoundObeys }
{
    true
}
