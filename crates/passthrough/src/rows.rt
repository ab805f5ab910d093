// A row of operations that grows at the front of the lent room. Apart from the Printer of `records`, which puts bytes: one for both would be public, so
// without a `requires`, and would test for room at each put. That there is room stands in each contract, of another list in each.
ghost use Rattle.std.specs.Prelude.{◌≡◌, ◌∷◌, []};
ghost use Rattle.passthrough.specs.Rows.{seen, listed, after, Fits};

use crate::operations::Operation;

#[derive(Drop)]
pub(crate) struct Row<'a> {
    room: &'a mut [u16],
    pub(crate) at: usize,
}

impl<'a> Row<'a> {
    pub(crate) fn new(room: &'a mut [u16]) -> Row<'a>
        ensures { (result.room.ghost_name ≡ room.entry.ghost_name) × (result.room.now ≡ room.old) × (result.at ≡ 0) }
    {
        Row { room, at: 0 }
    }

    #[tactic(auto, unfolding(crate::specs::Rows::after))]
    pub(crate) fn put(&mut self, operation: Operation)
        requires { Fits (seen operation ∷ []) self.old }
        ensures { self.new ≡ after (seen operation ∷ []) self.old }
    {
        self.room[self.at] = u16::from(operation);
        self.at += 1;
    }

    #[tactic(auto, using(crate::proofs::Growing::rows))]
    pub(crate) fn extend(&mut self, operation: Option<Operation>)
        requires { Fits (listed operation) self.old }
        ensures { self.new ≡ after (listed operation) self.old }
    {
        if let Some(operation) = operation {
            self.put(operation);
        }
    }
}
