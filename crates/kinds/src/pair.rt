// A pair of any two kinds is a kind: even places belong to the left part, odd ones to the right.
ghost use Rattle.std.specs.Prelude.{◌≡◌};
ghost use Rattle.kinds.specs.Pair.{outer as outer_place, outer_fault, pair, pair_number, part, side_of};
ghost use Rattle.kinds.specs.declared.pair.Side.TheVariants.{Left, Right};
ghost use Rattle.std.proofs.Common.{rules};

use crate::{Change, Kind, KindFault, Question, Stamp};

#[derive(Clone, Copy)]
pub struct Pair<L, R> {
    left: L,
    right: R,
}

#[derive(Clone, Copy)]
enum Side {
    Left,
    Right,
}

impl Side {
    // The side that a place belongs to.
    fn of(place: u32) -> Side
        ensures { result ≡ side_of place }
    {
        if place % 2 == 0 {
            Side::Left
        } else {
            Side::Right
        }
    }

    // A fault of this side's part, as the pair's: it names the pair's place.
    fn outer_fault(self, fault: KindFault) -> KindFault
        ensures { result ≡ outer_fault self fault }
    {
        match fault {
            KindFault::UnknownChange(place) => KindFault::UnknownChange(self.outer(place)),
            KindFault::DoesNotFit(place) => KindFault::DoesNotFit(self.outer(place)),
            KindFault::UnknownQuestion(place) => KindFault::UnknownQuestion(self.outer(place)),
        }
    }

    // The pair's place for a place of this side's part.
    fn outer(self, place: u32) -> u32
        ensures { result ≡ outer_place self place }
    {
        match self {
            Side::Left => place.wrapping_mul(2),
            Side::Right => place.wrapping_mul(2).wrapping_add(1),
        }
    }
}

impl<L: Kind, R: Kind> Kind for Pair<L, R> {
    const NUMBER: u16 = L::NUMBER
        .wrapping_mul(7)
        .wrapping_add(R::NUMBER.wrapping_mul(13))
        .wrapping_add(5);

    ghost NUMBER = { pair_number L.NUMBER R.NUMBER };

    ghost meaning = { pair L.Kind.meaning R.Kind.meaning };

    ghost represents = { λ v h. (L.Kind.represents v.left (part Left h)) × (R.Kind.represents v.right (part Right h)) };

    ghost fitting = { Prim.search rules };

    #[tactic(auto, unfolding(crate::specs::Pair::cuts, crate::specs::Events::pick, crate::specs::Pair::sent))]
    fn empty() -> Pair<L, R> {
        Pair {
            left: L::empty(),
            right: R::empty(),
        }
    }

    fn change(&mut self, stamp: Stamp, change: Change) -> Result<i64, KindFault> {
        let inner = change.halved();
        let side = Side::of(change.place);
        match side {
            Side::Left => self.left.change(stamp, inner),
            Side::Right => self.right.change(stamp, inner),
        }
        .map_err(|fault| side.outer_fault(fault))
    }

    // Where neither part can be merged, the left one's fault is named.
    fn merge(
        base: &Pair<L, R>,
        first: &Pair<L, R>,
        second: &Pair<L, R>,
    ) -> Result<Pair<L, R>, KindFault> {
        let left = L::merge(&base.left, &first.left, &second.left).map_err(
            |fault| Side::Left.outer_fault(fault),
        )?;
        let right = R::merge(&base.right, &first.right, &second.right).map_err(
            |fault| Side::Right.outer_fault(fault),
        )?;
        Ok(Pair { left, right })
    }

    fn answer(&self, question: Question) -> Result<i64, KindFault> {
        let inner = question.halved();
        let side = Side::of(question.place);
        match side {
            Side::Left => self.left.answer(inner),
            Side::Right => self.right.answer(inner),
        }
        .map_err(|fault| side.outer_fault(fault))
    }
}
