// What OP works out of two words.
ghost use Rattle.std.specs.Prelude.{◌≡◌};
ghost use Rattle.model.specs.Machine.{operate};

use model::Operation;

#[tactic(auto, unfolding(model::specs::Machine::operate))]
pub(crate) fn operate(op: Operation, left: u32, right: u32) -> u32
    ensures { result ≡ operate op left right }
{
    match op {
        Operation::Add => left.wrapping_add(right),
        Operation::Sub => left.wrapping_sub(right),
        Operation::Mul => left.wrapping_mul(right),
        Operation::Xor => left ^ right,
        Operation::And => left & right,
        Operation::Or => left | right,
        Operation::Less => u32::from(left < right),
        Operation::Equal => u32::from(left == right),
    }
}
