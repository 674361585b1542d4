// What a rig refuses before it steps or is cut.
ghost use Rattle.rig.specs.Limit.{Allowed};

use crate::standing::Standing;
use isa::refusal::Refusal;

impl Standing {
    // Nothing is done once the round has ended, or where as many were made as a
    // rig makes, which is refused by `all_made`.
    pub(crate) fn allow(&self, made: u32, limit: u32, all_made: Refusal) -> Result<(), Refusal>
        ensures { Allowed self.now.kept made limit all_made result }
    {
        if self.kept.ended() {
            return Err(Refusal::Ended);
        }
        if made >= limit {
            return Err(all_made);
        }
        Ok(())
    }
}
