ghost use Rattle.std.specs.Prelude.{◌≡◌, ◌≤◌, IfOk};
ghost use Rattle.dr_books.specs.Opened.{AreOpened};
ghost use Rattle.dr_node.specs.Seats.{new_seats};

use crate::seat::Seat;
use dr_books::Books;
use std::alloc::{AllocError, Global};

/// The seats of the shares of books that were just opened.
pub(crate) fn seats_of<B: Books>(
    alloc: Global,
    shares: Vec<B::Share>,
) -> Result<Vec<Seat<B>>, AllocError>
    requires few { B.seats ≤ 8 }
    requires opened { AreOpened B.place B.own_mine B.own_floor B.is_whole B.seats shares.items }
    ensures { IfOk result (λ seats. seats.items ≡ new_seats B.seats) }
{
    let mut seats = Vec::with_capacity(alloc, shares.len())?;
    let mut number = 0u8;
    for share in shares {
        seats.push(Seat {
            number,
            own: Vec::new(alloc),
            floor: 0,
            share,
        })?;
        number += 1;
    }
    Ok(seats)
}
