use dr_node::{Books, Seat};

/// The first of two seats, and the second.
pub fn pair_of<B: Books>(seats: Vec<Seat<B>>) -> Option<(Seat<B>, Seat<B>)> {
    let mut seats = seats;
    let second = seats.pop()?;
    let first = seats.pop()?;
    Some((first, second))
}
