// A list of prices where its caller has it.
ghost use Rattle.std.specs.Prelude.{◌≡◌, length};
ghost use Rattle.pricing.specs.Flat.{Small};

// Prices by opcode, and the last for a saving. They are not copied, since a copy
// takes longer than a step.
#[derive(Clone, Copy)]
pub(crate) struct Listed<'a> {
    pub(crate) prices: &'a [u16],
    ghost whole: { length prices.now ≡ 257 },
    ghost small: { Small prices.now },
}

impl<'a> Listed<'a> {
    pub(crate) fn new(prices: &'a [u16]) -> Listed<'a>
        requires { length prices.now ≡ 257 }
        ensures { result.prices.now ≡ prices.now }
    {
        Listed { prices }
    }
}
