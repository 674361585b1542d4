// A supply.
ghost use Rattle.std.specs.Prelude.{◌≡◌, ℕ};
ghost use Rattle.supply.specs.declared.answer.Answer.{Answer};
ghost use Rattle.supply.specs.Supply.{Four, Drawn, Recharged};

use crate::answer::Answer;

// It means four numbers. What a draw and a recharge do to a supply of its kind
// are relations of its own, and the laws say that they keep the meaning.
pub trait Supply {
    ghost four: { Self → Four };

    ghost draws: { Self → ℕ → Answer → Self → Type 0 };

    ghost fills: { Self → Self → Type 0 };

    // The charge that a recharge assures.
    fn budget(&self) -> u64
        ensures { result ≡ (four self.now).budget };

    // The charge that is certain to be there.
    fn assured(&self) -> u64
        ensures { result ≡ (four self.now).assured };

    // All units asked for so far, modulo 2^64.
    fn asked(&self) -> u64
        ensures { result ≡ (four self.now).asked };

    // How often it was recharged, modulo 2^64.
    fn charges(&self) -> u64
        ensures { result ≡ (four self.now).charges };

    fn recharge(&mut self)
        ensures { fills self.old self.new };

    // Asks for so many units.
    fn draw(&mut self, units: u32) -> Answer
        ensures { draws self.old units result self.new };

    ghost drawn: { (s t : Self) (n : ℕ) (a : Answer) → draws s n a t → Drawn (four s) n a (four t) };

    ghost recharged: { (s t : Self) → fills s t → Recharged (four s) (four t) };
}
