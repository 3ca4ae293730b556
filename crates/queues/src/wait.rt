// A row of the queue: an item that waits, by the event that put it.
ghost use Rattle.std.proofs.Common.{rules};
ghost use Rattle.queues.specs.Line.{wait_key};

use rows::Row;

#[derive(Clone, Copy, PartialEq, Eq)]
pub struct Wait {
    pub event: u16,
    pub item: u16,
}

pub const EMPTY_WAIT: Wait = Wait { event: 0, item: 0 };

impl Row for Wait {
    type Key = u16;

    ghost key = { wait_key };

    ghost whole = { Prim.search rules };

    ghost level = { Prim.search rules };

    fn key(&self) -> u16 {
        self.event
    }
}
