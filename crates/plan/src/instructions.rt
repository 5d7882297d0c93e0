ghost use Rattle.std.specs.Prelude.{◌≡◌, false, MatchResult};
ghost use Rattle.plan.specs.Operations.{is_operation};
ghost use Rattle.plan.specs.Coded.{number_of};

use crate::Node;
use crate::operations::{Operation, UnknownOperation};

// A node whose operation is known.
#[derive(Clone, Copy)]
pub struct Instruction {
    pub op: Operation,
    pub node: Node,
    pub ghost named: { number_of op ≡ node.op },
}

impl TryFrom<Node> for Instruction {
    type Error = UnknownOperation;

    ghost try_from_gives = { λ x r. MatchResult r (λ i. i.node ≡ x) (λ e. (e.0 ≡ x.op) × (is_operation x.op ≡ false)) };

    fn try_from(node: Node) -> Result<Self, UnknownOperation> {
        let op = Operation::try_from(node.op)?;
        Ok(Instruction { op, node })
    }
}
