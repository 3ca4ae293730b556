// Rows whose key is of another make: two numbers, of which the first falls.
ghost use Rattle.std.proofs.Common.{rules};

use crate::{Row, join, rising};
use std::cmp::Reverse;

#[derive(Clone, Copy, PartialEq, Eq, Debug)]
struct Weighed {
    weight: u16,
    name: u16,
    value: u8,
}

impl Row for Weighed {
    type Key = (Reverse<u16>, u16);

    ghost key = { λ row. (record { 0 = row.weight }, row.name) };

    ghost whole = { Prim.search rules };

    ghost level = { Prim.search rules };

    fn key(&self) -> (Reverse<u16>, u16) {
        (Reverse(self.weight), self.name)
    }
}

fn row(weight: u16, name: u16, value: u8) -> Weighed {
    Weighed {
        weight,
        name,
        value,
    }
}

// The base has three rows; the first side drops one of them and has one more, the second changes another.
#[test]
fn joins_by_a_key_that_falls(rt: HostRuntime) {
    let base = [row(9, 1, 0), row(9, 2, 0), row(3, 1, 0)];
    let first = [row(9, 1, 0), row(5, 7, 1), row(3, 1, 0)];
    let second = [row(9, 1, 2), row(9, 2, 0), row(3, 1, 0)];
    let mut out = [row(0, 0, 0); 4];
    assert_eq!(rt; join(&base, &first, &second, &mut out), Some(3));
    assert_eq!(rt;
        out,
        [row(9, 1, 2), row(5, 7, 1), row(3, 1, 0), row(0, 0, 0)]
    );
    assert_eq!(rt; join(&base, &first, &second, &mut out[..2]), None);
    assert!(rt; rising(&out[..3]));
    assert!(rt; !rising(&[row(3, 1, 0), row(9, 1, 0)]));
    assert!(rt; !rising(&[row(3, 1, 0), row(3, 1, 1)]));
}
