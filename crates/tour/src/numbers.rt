// A merge by object numbers: the same joining of rows, over rows that are the number of a stale object and nothing else. It is what a store
// of such rows would do, and shows what they lack.
ghost use Rattle.std.proofs.Common.{rules};

use anyhow::Context;
use rows::{Row, join};
use std::alloc::{AllocError, Global};

#[derive(Clone, Copy, PartialEq, Eq)]
struct Bare(u16);

impl Row for Bare {
    type Key = u16;

    ghost key = { λ row. row.0 };

    ghost whole = { Prim.search rules };

    ghost level = { Prim.search rules };

    fn key(&self) -> u16 {
        self.0
    }
}

fn bare_rows(alloc: Global, objects: &[u16]) -> Result<Vec<Bare>, AllocError> {
    objects.iter().map(|object| Bare(*object)).collect(alloc)
}

// The objects that are stale after such a merge.
pub(crate) fn merged(
    alloc: Global,
    base: &[u16],
    first: &[u16],
    second: &[u16],
) -> anyhow::Result<Vec<u16>> {
    let base = bare_rows(alloc, base)?;
    let first = bare_rows(alloc, first)?;
    let second = bare_rows(alloc, second)?;
    let mut out = vec![in alloc; Bare(0); first.len() + second.len()]?;
    let count = join(
        base.as_slice(),
        first.as_slice(),
        second.as_slice(),
        out.as_mut_slice(),
    )
    .context("a join has at most the rows of both sides")?;
    let objects = out.iter().take(count).map(|row| row.0).collect(alloc)?;
    Ok(objects)
}
