// What agents do to a worklist, and the changes that say so.
ghost use Rattle.std.specs.Prelude.{◌≡◌, List};
ghost use Rattle.kinds.specs.Events.{Event};
ghost use Rattle.worklists.specs.Operations.{InTurn, change_of, in_range, reply_to, state_of};

use crate::places::{QUEUE, REBUILDS, SKIPS, STALE};
use crate::worklist::Worklist;
use kinds::{Change, Kind};

#[derive(Clone, Copy, PartialEq, Eq, Debug)]
pub enum Operation {
    // an object is stale
    Mark(u16),
    // an object is stale no more
    Clear(u16),
    // so many objects were rebuilt
    Rebuild(i32),
    // an object waits to be rebuilt
    Put(u16),
    // the first object that waits is taken
    Take,
    // so many objects were skipped
    Skip(i32),
}

impl Operation {
    // The change of a worklist that says it.
    pub fn change(self) -> Change
        ensures made { result ≡ change_of self }
        // only an amount can be out of range, and is unknown to the worklist then
        ensures known { ⟦<Worklist as Kind>⟧.meaning.knows result ≡ in_range self }
        // the reply is that of a plain worklist, in the state that the history comes to
        ensures reply { (h : List Event) → ⟦<Worklist as Kind>⟧.meaning.reply h result ≡ reply_to self (state_of h) }
        ensures in_turn { InTurn self result }
    {
        let (place, verb, argument) = match self {
            Operation::Mark(object) => (STALE, 1, i32::from(object)),
            Operation::Clear(object) => (STALE, 2, i32::from(object)),
            Operation::Rebuild(amount) => (REBUILDS, 1, amount),
            Operation::Put(object) => (QUEUE, 1, i32::from(object)),
            Operation::Take => (QUEUE, 2, 0),
            Operation::Skip(amount) => (SKIPS, 1, amount),
        };
        Change {
            place,
            verb,
            argument,
        }
    }
}
