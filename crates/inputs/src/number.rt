// Numbers as people write them: digits, which a plus may lead.
ghost use Rattle.std.specs.Prelude.{◌≡◌, ◌^◌};
ghost use Rattle.inputs.specs.Number.{number};

#[tactic(auto, using(crate::proofs::Numbers::parsed))]
pub(crate) fn u16_of(word: &str) -> Option<u16>
    ensures { result ≡ number 10 (2 ^ 16) word.now }
{
    word.parse().ok()
}

#[tactic(auto, using(crate::proofs::Numbers::parsed))]
pub(crate) fn u32_of(word: &str) -> Option<u32>
    ensures { result ≡ number 10 (2 ^ 32) word.now }
{
    word.parse().ok()
}

#[tactic(auto, using(crate::proofs::Numbers::parsed))]
pub(crate) fn u64_of(word: &str) -> Option<u64>
    ensures { result ≡ number 10 (2 ^ 64) word.now }
{
    word.parse().ok()
}

// An opcode byte in hexadecimal digits.
#[tactic(auto, using(crate::proofs::Numbers::parsed))]
pub(crate) fn byte_of(digits: &str) -> Option<u8>
    ensures { result ≡ number 16 (2 ^ 8) digits.now }
{
    u8::from_str_radix(digits, 16).ok()
}
