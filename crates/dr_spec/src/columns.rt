ghost use Rattle.std.specs.Prelude.{◌≡◌, ◌++◌, ◌∷◌, [], false, IfOk};
ghost use Rattle.dr_schema.specs.Columns.{column_names};
ghost use Rattle.dr_spec.specs.Refusal.{Gives};
ghost use Rattle.dr_spec.specs.Columns.{is_taken, distinct_names, few_columns};

use crate::spec_error::SpecError;
use dr_base::{Text, Texts};
use dr_dict::TextSet;
use dr_schema::Metrics;
use std::alloc::{AllocError, Global};

/// No column has the name of one before it, and none is called `__time`. Refusals: 24 `DuplicateName` of the first that
/// does or is. Each name is looked up among those before it by hashing.
pub fn distinct_columns(
    alloc: Global,
    dimensions: &Texts,
    metrics: &Metrics,
) -> Result<(), SpecError>
    ensures { Gives (λ u. u) result (distinct_names (column_names dimensions.now metrics.now)) }
{
    let names = column_names(alloc, dimensions, metrics)?;
    distinct_names(alloc, &names)
}

fn column_names(alloc: Global, dimensions: &Texts, metrics: &Metrics) -> Result<Texts, AllocError>
    ensures { IfOk result (λ names. names ≡ column_names dimensions.now metrics.now) }
{
    let mut names = dimensions.copy()?;
    for metric in metrics.as_slice() {
        names.push(metric.name.copy()?)?;
    }
    Ok(names)
}

fn distinct_names(alloc: Global, names: &Texts) -> Result<(), SpecError>
    ensures { Gives (λ u. u) result (distinct_names names.now) }
{
    let texts = names.as_slice();
    let mut before = TextSet::new(alloc);
    for name in texts {
        if is_taken(name, &mut before)? {
            return Err(SpecError::DuplicateName(name.copy()?));
        }
    }
    Ok(())
}

/// Whether a name is taken; one that isn't is added behind those before it.
fn is_taken(name: &Text, before: &mut TextSet) -> Result<bool, AllocError>
    ensures taken { IfOk result (λ taken. taken ≡ is_taken name.now before.old) }
    ensures added { IfOk result (λ taken. taken ≡ false → before.new ≡ before.old ++ name.now ∷ []) }
{
    if name.as_str() == "__time" {
        return Ok(true);
    }
    Ok(!before.add(name)?)
}

/// There are at most 64 dimensions and at most 64 metrics. Refusals: 27 `TooManyColumns`.
pub fn few_columns(dimensions: &Texts, metrics: &Metrics) -> Result<(), SpecError>
    ensures { Gives (λ u. u) result (few_columns dimensions.now metrics.now) }
{
    if dimensions.len() > 64 || metrics.len() > 64 {
        Err(SpecError::TooManyColumns)
    } else {
        Ok(())
    }
}
