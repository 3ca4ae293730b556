// What is asked of a worklist, and the questions that ask it.
ghost use Rattle.std.specs.Prelude.{◌≡◌, List, true};
ghost use Rattle.kinds.specs.Events.{Event};
ghost use Rattle.worklists.specs.Operations.{answer_to, question_of, state_of};

use crate::places::{QUEUE, REBUILDS, SKIPS, STALE};
use crate::worklist::Worklist;
use kinds::{Kind, Question};

#[derive(Clone, Copy, PartialEq, Eq, Debug)]
pub enum Query {
    // 1 if an object is stale, else 0
    IsStale(u16),
    // how many objects were rebuilt
    Rebuilds,
    // the first object that waits, or -1
    FirstWaiting,
    // how many objects wait
    Waiting,
    // how many objects were skipped
    Skips,
}

impl Query {
    // The question to a worklist that asks it.
    pub fn question(self) -> Question
        ensures asked { result ≡ question_of self }
        ensures known { ⟦<Worklist as Kind>⟧.meaning.hears result ≡ true }
        // the answer is that of a plain worklist, in the state that the history comes to
        ensures answer { (h : List Event) → ⟦<Worklist as Kind>⟧.meaning.answer h result ≡ answer_to self (state_of h) }
    {
        let (place, verb, argument) = match self {
            Query::IsStale(object) => (STALE, 1, i32::from(object)),
            Query::Rebuilds => (REBUILDS, 1, 0),
            Query::FirstWaiting => (QUEUE, 1, 0),
            Query::Waiting => (QUEUE, 2, 0),
            Query::Skips => (SKIPS, 1, 0),
        };
        Question {
            place,
            verb,
            argument,
        }
    }
}
