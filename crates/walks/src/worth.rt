// The worths of the nodes of a graph.
ghost use Rattle.std.specs.Prelude.{◌≡◌, true};
ghost use Rattle.walks.specs.Worth.{CompleteRight, WorthRight};

// The worth of a reachable node is the join of all complete lists from it.
pub fn worth_is_right() -> bool
    ensures told { result ≡ true }
    ensures worth { WorthRight }
    ensures complete { CompleteRight }
{
    true
}
