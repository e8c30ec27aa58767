ghost use Rattle.std.specs.Prelude.{◌≡◌, ◌+◌, ◌++◌, IfOk, map};
ghost use Rattle.dr_books.specs.Sides.{both_lengths, match_side, first, second};

use crate::books::Books;
use crate::side::Side;
use std::alloc::{AllocError, Global};

/// The books of A's seats, and then of B's. They are of the node that A's are of.
#[derive(Drop)]
pub struct Joined<A: Books, B: Books> {
    first: A,
    second: B,
}

impl<A: Books, B: Books> Books for Joined<A, B> {
    type Share = Side<A::Share, B::Share>;

    type Blanks = (A::Blanks, B::Blanks);

    ghost schema = { A.schema };

    ghost seats = { A.seats + B.seats };

    ghost mine = { λ books. A.mine books.first ++ B.mine books.second };

    ghost floor = { λ books. A.floor books.first ++ B.floor books.second };

    ghost place = { λ share. match_side A.place (λ s. A.seats + B.place s) share };

    ghost own_mine = { λ share. match_side A.own_mine B.own_mine share };

    ghost own_floor = { λ share. match_side A.own_floor B.own_floor share };

    ghost is_whole = { λ share. match_side A.is_whole B.is_whole share };

    ghost are_blank = { λ blanks. A.are_blank blanks.0 × B.are_blank blanks.1 };

    fn open(
        alloc: Global,
        blanks: (A::Blanks, B::Blanks),
    ) -> Result<(Self, Vec<Side<A::Share, B::Share>>), AllocError> {
        let (blanks, others) = blanks;
        let (first, shares) = A::open(alloc, blanks)?;
        let (second, other_shares) = B::open(alloc, others)?;
        let shares = one_behind_the_other(alloc, shares, other_shares)?;
        Ok((Joined { first, second }, shares))
    }

    fn add(&mut self, share: &mut Side<A::Share, B::Share>, accepted: u64, seen: u64) {
        match share {
            Side::First(own) => self.first.add(own, accepted, seen),
            Side::Second(own) => self.second.add(own, accepted, seen),
        }
    }

    ghost mine_length = { λ books. both_lengths (A.mine books.first) (B.mine books.second) A.seats B.seats (A.mine_length books.first) (B.mine_length books.second) };

    ghost floor_length = { λ books. both_lengths (A.floor books.first) (B.floor books.second) A.seats B.seats (A.floor_length books.first) (B.floor_length books.second) };
}

fn one_behind_the_other<A: Drop, B: Drop>(
    alloc: Global,
    firsts: Vec<A>,
    seconds: Vec<B>,
) -> Result<Vec<Side<A, B>>, AllocError>
    ensures { IfOk result (λ sides. sides.items ≡ map first firsts.items ++ map second seconds.items) }
{
    let mut sides = Vec::with_capacity(alloc, firsts.len())?;
    for share in firsts {
        sides.push(Side::First(share))?;
    }
    for share in seconds {
        sides.push(Side::Second(share))?;
    }
    Ok(sides)
}
