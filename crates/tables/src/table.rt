// A table with an entry for each of 1,024 slots.
ghost use Rattle.std.specs.Prelude.{◌≡◌, ℕ, ◌<◌, length, slice_index_or};

use std::array;

// The table of what a function says of each slot.
// Stays: the device has 1,024 slots, and a library has no heap.
pub(crate) fn table_of<T, F: Fn(u16) -> T>(entry: F) -> [T; 1024]
    requires { (at : ℕ) → at < 1024 → F.pre entry at }
    ensures size { length result ≡ 1024 }
    ensures holds { (at : ℕ) (d : T) → at < 1024 → F.post entry at (slice_index_or result at d) }
{
    array::from_fn(|at| entry(at as u16))
}
