ghost use Rattle.std.specs.Prelude.{◌≡◌, ◌++◌, OnOk};
ghost use Rattle.dr_ask.specs.Outputs.{distinct_from, distinct_outputs};
ghost use Rattle.dr_ask.specs.Refusal.{Gives};

use crate::query_error::QueryError;
use dr_base::Text;
use dr_dict::TextSet;
use std::alloc::Global;

/// That the names of a query's dimensions and then of its aggregations differ. Refusals: 72 `DuplicateOutput` with the first name
/// that stood before.
#[tactic(auto, unfolding(crate::specs::Outputs::distinct_outputs))]
pub fn distinct_outputs(
    alloc: Global,
    dimensions: &[Text],
    aggregations: &[Text],
) -> Result<(), QueryError>
    ensures { Gives (λ u. u) result (distinct_outputs dimensions.now aggregations.now) }
{
    let mut seen = TextSet::new(alloc);
    add_names(&mut seen, dimensions)?;
    add_names(&mut seen, aggregations)
}

/// Adds names to those that stood before. Refusals: 72 `DuplicateOutput` with the first name that stood before.
pub fn add_names(seen: &mut TextSet, names: &[Text]) -> Result<(), QueryError>
    ensures value { Gives (λ u. u) result (distinct_from seen.old names.now) }
    ensures added { OnOk result (seen.new ≡ seen.old ++ names.now) }
{
    for name in names {
        if !seen.add(name)? {
            return Err(QueryError::DuplicateOutput(name.copy()?));
        }
    }
    Ok(())
}
