// The graph of an image.
ghost use Rattle.std.specs.Prelude.{◌≡◌};
ghost use Rattle.isa.specs.Image.{instruction_at};
ghost use Rattle.walks.specs.ImageGraph.{LawfulSmall, LawfulSound, price_by, price_of, role_in};

use isa::image::instruction_at;
use isa::instruction::{Instruction, Role};
use pricing::model::PriceModel;

// What a slot is to a round; another where it has no legal instruction.
pub fn role_at(image: &[u8], at: u16) -> Role
    ensures { result ≡ role_in (instruction_at image.now at) }
{
    instruction_at(image, at).map_or(Role::Other, |instruction| instruction.role())
}

// The price of a role, by the most of an instruction and the dearest saving.
fn price_by(role: Role, most: u32, saving: u32) -> u64
    ensures { result ≡ price_by role most saving }
{
    match role {
        Role::Save => saving as u64,
        Role::Exit => most as u64 + saving as u64,
        Role::Idle | Role::Other => most as u64,
    }
}

// What an instruction costs a walk. The graph of these prices is sound and
// small where the image is lawful.
pub fn price_of<M: PriceModel>(model: &M, instruction: Instruction) -> u64
    ensures price { result ≡ price_of (M.PriceModel.means model.now) instruction }
    ensures sound { LawfulSound }
    ensures small { LawfulSmall }
{
    let most = model.most(instruction.fields.opcode, instruction.fields.imm);
    price_by(instruction.role(), most, model.dearest())
}
