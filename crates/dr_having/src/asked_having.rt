ghost use Rattle.std.specs.Prelude.{◌≡◌, not, map, ℕ, ℤ, List};
ghost use Rattle.std.specs.List.{list_all};
ghost use Rattle.dr_having.specs.Asked.{asked_meets};
ghost use Rattle.dr_having.specs.OutputMeets.{outputs_meet};

use crate::asked_output::AskedOutput;
use dr_outputs::{OutputNumbers, OutputTexts};
use std::alloc::Global;

// How often something is asked of an output at least, where it is asked soonest of many groups at once.
const MANY_OUTPUTS: usize = 32;

/// What is asked of each group in the place of a `having`: one thing of each output that it names, and none of some others, which
/// stand apart. Contracts see whether a group meets it, `asked_meets`.
#[derive(Debug, Drop)]
pub struct AskedHaving {
    pub(crate) outputs: Vec<AskedOutput>,
    pub(crate) denied: Vec<AskedHaving>,
}

impl AskedHaving {
    // What is asked of outputs alone.
    pub(crate) fn of_outputs(alloc: Global, outputs: Vec<AskedOutput>) -> AskedHaving
        ensures { (dims : List (List ℕ)) (values : List ℤ) → asked_meets dims values result ≡ outputs_meet dims values outputs.items }
    {
        AskedHaving {
            outputs,
            denied: Vec::new(alloc),
        }
    }

    /// Whether so much is asked that it is asked soonest of many groups at once, by [`AskedHaving::select`]. It takes time by what is
    /// asked.
    pub fn is_asked_at_once(&self) -> bool {
        self.output_count() >= MANY_OUTPUTS
    }

    // How often something is asked of an output.
    #[cycle(counting)]
    fn output_count(&self) -> usize {
        self.outputs
            .len()
            .saturating_add(output_count_of(self.denied.as_slice()))
    }

    /// Whether a group meets it: its dimension values and the values of its aggregations, each in the order of the query. It
    /// takes no memory, and expected time by the conditions that stand apart, as an `and` or an `or` over two outputs within the other
    /// one does, and within each of them by the aggregations that it names, each with the logarithm of the comparisons of it, and the
    /// bytes of the values of the dimensions that it names, however many conditions are on one of these.
    #[cycle(meeting)]
    pub fn meets(&self, dims: &OutputTexts<'_>, values: &OutputNumbers<'_>) -> bool
        ensures { result ≡ asked_meets dims.now values.now self.now }
    {
        all_hold(self.outputs.as_slice(), dims, values)
            && none_meets(self.denied.as_slice(), dims, values)
    }
}

#[cycle(counting)]
fn output_count_of(denied: &[AskedHaving]) -> usize {
    let mut count = 0usize;
    for asked in denied {
        count = count.saturating_add(asked.output_count());
    }
    count
}

fn all_hold(outputs: &[AskedOutput], dims: &OutputTexts<'_>, values: &OutputNumbers<'_>) -> bool
    ensures { result ≡ outputs_meet dims.now values.now outputs.now }
{
    outputs.iter().all(|output| output.holds_of(dims, values))
}

// Whether a group meets none of what is denied.
#[cycle(meeting)]
fn none_meets(denied: &[AskedHaving], dims: &OutputTexts<'_>, values: &OutputNumbers<'_>) -> bool
    ensures { result ≡ list_all not (map (asked_meets dims.now values.now) denied.now) }
{
    for asked in denied {
        if asked.meets(dims, values) {
            return false;
        }
    }
    true
}
