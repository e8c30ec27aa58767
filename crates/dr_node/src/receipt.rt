ghost use Rattle.std.specs.Prelude.{◌≡◌};

use std::marker::Model;

/// What a seat is given for an event that a node accepted. A contract sees the number of the event in the stream.
#[derive(Debug, Drop)]
pub struct Receipt {
    number: u64,
}

impl Model for Receipt {
    ghost use Rattle.dr_node.specs.Seats.{Received};

    ghost Value = { Received };

    ghost view = { λ r. record { number = r.number } };
}

impl Receipt {
    pub(crate) fn new(number: u64) -> Receipt
        ensures { result.number ≡ number }
    {
        Receipt { number }
    }

    /// The number of the event in the stream, from 0. It takes no memory.
    pub fn number(&self) -> u64
        ensures { result ≡ self.now.number }
    {
        self.number
    }
}
