ghost use Rattle.std.specs.Prelude.{◌≡◌};
ghost use Rattle.plan.specs.Coded.{number_of, Decodes};

// What a node does. Its number in a table is its place in this list.
#[derive(Clone, Copy, Debug, PartialEq, Eq)]
pub enum Operation {
    Const,
    Param,
    Permute,
    Flip,
    Reshape,
    Expand,
    Pad,
    Shrink,
    Cast,
    Add,
    Mul,
    Max,
    Idiv,
    Mod,
    CmpLt,
    CmpNe,
    And,
    Or,
    Where,
    Reduce,
    Load,
    Fill,
    Known,
    Stack,
}

impl Operation {
    // Its number in a table.
    pub fn number(self) -> usize
        ensures { result ≡ number_of self }
    {
        self as usize
    }
}

// A number that no operation has.
#[derive(Clone, Copy, Debug, PartialEq, Eq)]
pub struct UnknownOperation(pub usize);

impl TryFrom<usize> for Operation {
    type Error = UnknownOperation;

    ghost try_from_gives = { Decodes };

    fn try_from(number: usize) -> Result<Self, UnknownOperation> {
        match number {
            0 => Ok(Operation::Const),
            1 => Ok(Operation::Param),
            2 => Ok(Operation::Permute),
            3 => Ok(Operation::Flip),
            4 => Ok(Operation::Reshape),
            5 => Ok(Operation::Expand),
            6 => Ok(Operation::Pad),
            7 => Ok(Operation::Shrink),
            8 => Ok(Operation::Cast),
            9 => Ok(Operation::Add),
            10 => Ok(Operation::Mul),
            11 => Ok(Operation::Max),
            12 => Ok(Operation::Idiv),
            13 => Ok(Operation::Mod),
            14 => Ok(Operation::CmpLt),
            15 => Ok(Operation::CmpNe),
            16 => Ok(Operation::And),
            17 => Ok(Operation::Or),
            18 => Ok(Operation::Where),
            19 => Ok(Operation::Reduce),
            20 => Ok(Operation::Load),
            21 => Ok(Operation::Fill),
            22 => Ok(Operation::Known),
            23 => Ok(Operation::Stack),
            _ => Err(UnknownOperation(number)),
        }
    }
}
