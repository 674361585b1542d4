// Orders of the nodes that walks come to, and loops.
ghost use Rattle.std.specs.Prelude.{◌≡◌, true};
ghost use Rattle.walks.specs.Order.{FilledRight, LoopRight, OrderRight};

// An order shows that no walk holds a node twice, and a loop that one does.
pub fn order_is_right() -> bool
    ensures told { result ≡ true }
    ensures order { OrderRight }
    ensures filled { FilledRight }
    ensures round { LoopRight }
{
    true
}
