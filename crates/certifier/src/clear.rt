// A list of worths with its front cleared.
ghost use Rattle.std.specs.Prelude.{length};
ghost use Rattle.certifier.specs.Clear.{Cleared};

use paths::kind::PathValue;

// Gives the first nodes, so many as count says, the empty value.
pub(crate) fn clear<V: PathValue>(worths: &mut [V], count: usize)
    ensures { Cleared V.PathValue.kind count worths.old worths.new }
{
    let count = count.min(worths.len());
    let empty = V::empty();
    worths[..count].fill_with(|| empty);
}
