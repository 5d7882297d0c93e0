// Following an element back to where it comes from: the definitions stand in specs/.
#![tactic(auto)]

ghost use Rattle.std.specs.Prelude.{◌≡◌, Result};
ghost use Rattle.plan.specs.Coded.{outcome_of};
ghost use Rattle.lookup.specs.Following.{reply_of};

use plan::{ElementNumber, NodeNumber, Refusal};

// A node and an element of it.
#[derive(Clone, Copy, Debug, PartialEq, Eq)]
pub struct Place {
    pub node: NodeNumber,
    pub element: ElementNumber,
}

// What a lookup finds: a place, or a gap. No Option, since docs/MAP.md names this type and the definitions that speak of it (`follow`, `lookup`).
#[derive(Clone, Copy, Debug, PartialEq, Eq)]
pub enum Found {
    At(Place),
    Gap,
}

// A lookup's answer as numbers: that of the refusal and its place; 0 nothing, 1 a place, 2 a gap; the place's node and element.
#[repr(C)]
#[derive(Clone, Copy, Debug, PartialEq, Eq)]
pub struct Reply {
    pub number: u64,
    pub place: u64,
    pub found: u64,
    pub node: u64,
    pub element: u64,
}

impl From<Result<Found, Refusal>> for Reply {
    ghost from_gives = { λ looked r. r ≡ reply_of (outcome_of (λ f. f) looked) };

    fn from(looked: Result<Found, Refusal>) -> Reply {
        match looked {
            Err(refusal) => Reply {
                number: refusal.fault as u64,
                place: refusal.place as u64,
                found: 0,
                node: 0,
                element: 0,
            },
            Ok(Found::Gap) => Reply {
                number: 0,
                place: 0,
                found: 2,
                node: 0,
                element: 0,
            },
            Ok(Found::At(p)) => Reply {
                number: 0,
                place: 0,
                found: 1,
                node: p.node.0 as u64,
                element: p.element.0 as u64,
            },
        }
    }
}
