// Placing saves in an image.
ghost use Rattle.std.specs.Prelude.{◌≡◌, length, Err};
ghost use Rattle.walks.specs.Acceptance.{Answer};
ghost use Rattle.certifier.specs.Certify.{result_of, InOrder};
ghost use Rattle.placer.specs.Place.{unplaced, placement_of, answer_by, image_by, placing, placed_image, Meaning, Left};

use crate::settle::saves_in;
use crate::slot_bytes::{IDLE, SAVE, write_marked};
use certifier::certify::Certifier;
use isa::refusal::{Refusal, Unplaceable};
use paths::worth::Worth;
use pricing::model::PriceModel;

// The refusal of an image with every idle slot turned, carried by that of the
// image itself.
// Stays: it goes from a refusal to a refusal, so no From can say it.
fn no_placement(refusal: Refusal) -> Refusal
    ensures { (a : Answer) → result_of a ≡ Err refusal → Err result ≡ unplaced a }
{
    match refusal {
        Refusal::Loop { slot } => Refusal::NoPlacement {
            carried: Unplaceable::Loop { slot },
        },
        Refusal::OverBudget { slot, price } => Refusal::NoPlacement {
            carried: Unplaceable::OverBudget { slot, price },
        },
        _ => refusal,
    }
}

// Turns into saves the idle slots that need it, or all where the image is
// refused so, and fills the working list for the image that came out.
fn place_lawful<M: PriceModel>(
    image: &mut [u8],
    by: &Certifier<'_, M>,
    working: &mut [Worth],
) -> Result<(), Refusal>
    requires { InOrder image.old by.now.budget (length working.old) }
    ensures value { result ≡ answer_by (placement_of (M.PriceModel.means by.now.model.now) image.old by.now.budget) }
    ensures image { image.new ≡ image_by (placement_of (M.PriceModel.means by.now.model.now) image.old by.now.budget) image.old }
    ensures left { Left (M.PriceModel.means by.now.model.now) image.old image.new working.old working.new result }
{
    let saves = saves_in(image, by);
    write_marked(image, &saves, SAVE);
    if let Err(refusal) = by.certify(image, working) {
        write_marked(image, &saves, IDLE);
        return Err(no_placement(refusal));
    }
    Ok(())
}

// Turns idle slots into saves so that the certifier accepts the image, and none
// that could be left out. Where no choice of them is accepted, it refuses and
// leaves the image as it was.
pub fn place<M: PriceModel>(
    image: &mut [u8],
    by: &Certifier<'_, M>,
    working: &mut [Worth],
) -> Result<(), Refusal>
    ensures value { result ≡ placing (M.PriceModel.means by.now.model.now) image.old by.now.budget (length working.old) }
    ensures image { image.new ≡ placed_image (M.PriceModel.means by.now.model.now) image.old by.now.budget (length working.old) }
    ensures meaning { Meaning (M.PriceModel.means by.now.model.now) image.old by.now.budget (length working.old) image.new result }
    ensures left { Left (M.PriceModel.means by.now.model.now) image.old image.new working.old working.new result }
{
    by.admit(image, working.len())?;
    place_lawful(image, by, working)
}
