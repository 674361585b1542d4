// What one charge is good for.
ghost use Rattle.std.specs.Prelude.{◌≡◌, true};
ghost use Rattle.walks.specs.Charge.{ChargeRight};

// One charge pays every walk of an accepted graph, and a saving after it.
pub fn charge_is_right() -> bool
    ensures told { result ≡ true }
    ensures right { ChargeRight }
{
    true
}
