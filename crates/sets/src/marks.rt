// The rows of a set, their keys, and the plain form of a set in memory.
ghost use Rattle.sets.specs.Table.{mark_key};
ghost use Rattle.std.proofs.Common.{rules};

use rows::Row;

// The key of a row: an object on a branch, compared in that order.
#[derive(Clone, Copy, PartialEq, Eq, PartialOrd, Ord)]
pub struct MarkKey {
    object: u16,
    branch: u8,
}

// A row: the latest mark of an object on a branch, by the number of its event.
#[derive(Clone, Copy, PartialEq, Eq)]
pub struct Mark {
    pub object: u16,
    pub branch: u8,
    pub event: u16,
}

impl Row for Mark {
    type Key = MarkKey;

    ghost key = { mark_key };

    ghost whole = { Prim.search rules };

    ghost level = { Prim.search rules };

    fn key(&self) -> MarkKey {
        MarkKey {
            object: self.object,
            branch: self.branch,
        }
    }
}

pub const EMPTY_ROW: Mark = Mark {
    object: 0,
    branch: 0,
    event: 0,
};

// The most rows that a set has.
pub const PLACES: usize = 96;

// A set as it lies in memory: rows and their number, and no promise of them. It is plain data in memory that a caller lends, without a
// heap. One generic struct for these rows and the queue's is not to be had: with an array of a type parameter, each call would owe that
// its size fits.
#[derive(Clone, Copy)]
pub struct SetForm {
    pub rows: [Mark; PLACES],
    pub count: usize,
}
