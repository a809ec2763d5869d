// The obligation edges: no node has two pointer fields that admit one key.
ghost use Rattle.std.specs.Prelude.{◌≡◌, ◌↔◌, ◌∷◌, [], IsTrue, IfOk};
ghost use Rattle.plank_fact.specs.Obligations.{EdgesFail};
ghost use Rattle.plank_demand.specs.Asked.{twice_claims};

use crate::asking::Asking;
use crate::reached::one_is_reached;
use plank_base::OutOfMemory;
use plank_pic::Part;
use plank_query::{Claim, Goal, Oracle, Predicate, Situation};
use std::alloc::Global;

// That the node of the one name is there and shared, and that both pointer fields admit any key.
fn twice_claims() -> [Claim; 4]
    ensures { result ≡ twice_claims }
{
    [
        Claim {
            predicate: Predicate::Says(Part::Null { name: 0 }),
            value: false,
        },
        Claim {
            predicate: Predicate::Says(Part::Shared { name: 0 }),
            value: true,
        },
        Claim {
            predicate: Predicate::Admits {
                name: 0,
                pointer: 0,
            },
            value: true,
        },
        Claim {
            predicate: Predicate::Admits {
                name: 0,
                pointer: 1,
            },
            value: true,
        },
    ]
}

impl<'a, Q: Oracle> Asking<'a, Q> {
    /// Whether some node has two pointer fields that admit one key.
    pub(crate) fn edges_fail(&self, alloc: Global) -> Result<bool, OutOfMemory>
        ensures { IfOk result (λ fails. IsTrue fails ↔ EdgesFail self.now.program.now.header) }
    {
        let claims = twice_claims();
        let goals = [Goal::Anything];
        one_is_reached(
            alloc,
            self.oracle,
            self.program,
            Situation::Node,
            &claims,
            &goals,
        )
    }
}
