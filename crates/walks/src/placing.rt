// Which idle nodes become saves.
ghost use Rattle.std.specs.Prelude.{◌≡◌, true};
ghost use Rattle.walks.specs.Placing.{LawfulPlaceable, PlacementRight};
ghost use Rattle.walks.specs.TurnedImage.{TurnedRight};

// What is placed is accepted and needed, and what is refused is hopeless.
pub fn placement_is_right() -> bool
    ensures told { result ≡ true }
    ensures right { PlacementRight }
    ensures placeable { LawfulPlaceable }
    ensures turned { TurnedRight }
{
    true
}
