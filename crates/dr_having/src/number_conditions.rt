ghost use Rattle.std.specs.Prelude.{◌≡◌, ℤ, List, IfOk};
ghost use Rattle.dr_having.specs.Collected.{are_numbers};
ghost use Rattle.dr_having.specs.LookUps.{is_among_at};

use crate::number_look_up::NumberLookUp;
use crate::number_steps::NumberSteps;
use std::alloc::{AllocError, Global};

/// Conditions on the value of one aggregation that are all to hold: its place, and the numbers that each lets through.
#[derive(Debug, Drop)]
pub struct NumberConditions {
    pub place: usize,
    pub sets: Vec<NumberSteps>,
}

impl NumberConditions {
    // One condition.
    pub(crate) fn of(alloc: Global, look_up: NumberLookUp) -> Result<NumberConditions, AllocError>
        ensures { IfOk result (λ c. (values : List ℤ) → are_numbers values c ≡ is_among_at values look_up) }
    {
        let mut sets = Vec::new(alloc);
        sets.push(look_up.steps)?;
        Ok(NumberConditions {
            place: look_up.place,
            sets,
        })
    }

    // What is asked of the aggregation.
    pub(crate) fn asked(&self, alloc: Global) -> Result<NumberLookUp, AllocError>
        ensures { IfOk result (λ l. (values : List ℤ) → is_among_at values l ≡ are_numbers values self.now) }
    {
        Ok(NumberLookUp {
            place: self.place,
            steps: NumberSteps::shared_by(alloc, self.sets.as_slice())?,
        })
    }
}
