ghost use Rattle.std.specs.Prelude.{◌≡◌, not, ℤ, List, IfOk};
ghost use Rattle.dr_having.specs.LookUps.{is_among_at};
ghost use Rattle.dr_having.specs.Meeting.{meets_value};

use crate::group_value::GroupValue;
use crate::number_steps::NumberSteps;
use dr_outputs::OutputNumbers;
use std::alloc::{AllocError, Global};

/// The numbers that conditions on the value of one aggregation let through, and the place of the aggregation.
#[derive(Debug, Drop)]
pub struct NumberLookUp {
    pub place: usize,
    pub steps: NumberSteps,
}

impl NumberLookUp {
    // The numbers that one condition lets through.
    pub(crate) fn of(alloc: Global, condition: &GroupValue) -> Result<NumberLookUp, AllocError>
        ensures { IfOk result (λ l. (values : List ℤ) → is_among_at values l ≡ meets_value condition.now values) }
    {
        Ok(NumberLookUp {
            place: condition.place,
            steps: NumberSteps::of(alloc, condition.comparison, &condition.value)?,
        })
    }

    // The other numbers.
    pub(crate) fn others(self) -> NumberLookUp
        ensures { (values : List ℤ) → is_among_at values result ≡ not (is_among_at values self) }
    {
        NumberLookUp {
            place: self.place,
            steps: self.steps.others(),
        }
    }

    /// Whether the value of the aggregation is one of the numbers. It takes no memory, and logarithmic time by the conditions that
    /// they come from.
    pub fn finds(&self, values: &OutputNumbers<'_>) -> bool
        ensures { result ≡ is_among_at values.now self.now }
    {
        self.steps.contains(values.at(self.place))
    }
}
