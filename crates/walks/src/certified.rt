// The answer about a sound graph.
ghost use Rattle.std.specs.Prelude.{◌≡◌, true};
ghost use Rattle.walks.specs.Certified.{CertifiedRight, WalksComplete};

// The computed answer says what is so, and no other answer does.
pub fn certified_is_right() -> bool
    ensures told { result ≡ true }
    ensures right { CertifiedRight }
    ensures complete { WalksComplete }
{
    true
}
