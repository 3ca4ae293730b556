// The places of a worklist's four parts.

// The set of stale objects.
pub const STALE: u32 = 0;

// How many objects were rebuilt.
pub const REBUILDS: u32 = 1;

// The queue of objects that wait to be rebuilt.
pub const QUEUE: u32 = 2;

// How many objects were skipped.
pub const SKIPS: u32 = 3;
