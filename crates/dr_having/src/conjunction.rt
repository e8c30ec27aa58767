ghost use Rattle.std.specs.Prelude.{◌≡◌, ◌&&◌, true, not, ℕ, ℤ, List, IfOk, OnOk};
ghost use Rattle.dr_having.specs.Asked.{asked_meets};
ghost use Rattle.dr_having.specs.Gathered.{conjunction_meets};
ghost use Rattle.dr_having.specs.Meeting.{meets_value, meets_dimension};
ghost use Rattle.dr_base.specs.Told.{told};
ghost use Rattle.dr_having.specs.OutputMeets.{output_meets, outputs_meet};

use crate::asked_having::AskedHaving;
use crate::asked_output::AskedOutput;
use crate::dimension_value::DimensionValue;
use crate::group_value::GroupValue;
use crate::number_look_up::NumberLookUp;
use crate::output_conditions::OutputConditions;
use crate::text_look_up::TextLookUp;
use std::alloc::{AllocError, Global};

/// Conditions that are all to hold, gathered one after the other: those on outputs, and those that are denied.
#[derive(Debug, Drop)]
pub struct Conjunction {
    pub outputs: OutputConditions,
    pub denied: Vec<AskedHaving>,
}

impl Conjunction {
    // No condition. It takes no memory yet.
    pub(crate) fn new(alloc: Global) -> Conjunction
        ensures { (dims : List (List ℕ)) (values : List ℤ) → conjunction_meets dims values result ≡ true }
    {
        Conjunction {
            outputs: OutputConditions::new(alloc),
            denied: Vec::new(alloc),
        }
    }

    // What is asked of each group.
    pub(crate) fn into_asked(self, alloc: Global) -> Result<AskedHaving, AllocError>
        ensures { IfOk result (λ asked. (dims : List (List ℕ)) (values : List ℤ) → asked_meets dims values asked ≡ conjunction_meets dims values self) }
    {
        Ok(AskedHaving {
            outputs: self.outputs.asked(alloc)?,
            denied: self.denied,
        })
    }

    // Adds that a comparison holds, or that it doesn't.
    pub(crate) fn add_number(
        &mut self,
        alloc: Global,
        condition: &GroupValue,
        holds: bool,
    ) -> Result<(), AllocError>
        ensures { OnOk result ((dims : List (List ℕ)) (values : List ℤ) → conjunction_meets dims values self.new ≡ (conjunction_meets dims values self.old && told holds (meets_value condition.now values))) }
    {
        let output = AskedOutput::Number(NumberLookUp::of(alloc, condition)?);
        self.add_output(alloc, output.wanted(holds))
    }

    // Adds that a dimension has a value, or that it hasn't.
    pub(crate) fn add_text(
        &mut self,
        alloc: Global,
        condition: &DimensionValue,
        holds: bool,
    ) -> Result<(), AllocError>
        ensures { OnOk result ((dims : List (List ℕ)) (values : List ℤ) → conjunction_meets dims values self.new ≡ (conjunction_meets dims values self.old && told holds (meets_dimension condition.now dims))) }
    {
        let output = AskedOutput::Text(TextLookUp::of(alloc, condition)?);
        self.add_output(alloc, output.wanted(holds))
    }

    // Adds what is asked of one output.
    fn add_output(&mut self, alloc: Global, output: AskedOutput) -> Result<(), AllocError>
        ensures { OnOk result ((dims : List (List ℕ)) (values : List ℤ) → conjunction_meets dims values self.new ≡ (conjunction_meets dims values self.old && output_meets dims values output)) }
    {
        self.outputs.add(alloc, output)
    }

    // Adds that others don't all hold. Where they come down to one thing that is asked of one output, the opposite is asked, with
    // what else is asked of that output.
    pub(crate) fn deny(&mut self, alloc: Global, others: Conjunction) -> Result<(), AllocError>
        ensures { OnOk result ((dims : List (List ℕ)) (values : List ℤ) → conjunction_meets dims values self.new ≡ (conjunction_meets dims values self.old && not (conjunction_meets dims values others))) }
    {
        if others.denied.len() != 0 {
            return self.deny_asked(others.into_asked(alloc)?);
        }
        self.deny_outputs(alloc, others.outputs.asked(alloc)?)
    }

    // Adds that not all is so that is asked of outputs.
    fn deny_outputs(&mut self, alloc: Global, outputs: Vec<AskedOutput>) -> Result<(), AllocError>
        ensures { OnOk result ((dims : List (List ℕ)) (values : List ℤ) → conjunction_meets dims values self.new ≡ (conjunction_meets dims values self.old && not (outputs_meet dims values outputs.items))) }
    {
        let mut outputs = outputs;
        if outputs.len() != 1 {
            return self.deny_asked(AskedHaving::of_outputs(alloc, outputs));
        }
        match outputs.pop() {
            Some(output) => self.add_output(alloc, output.opposite()),
            None => Ok(()),
        }
    }

    // Adds that something isn't so, which stands apart.
    fn deny_asked(&mut self, asked: AskedHaving) -> Result<(), AllocError>
        ensures { OnOk result ((dims : List (List ℕ)) (values : List ℤ) → conjunction_meets dims values self.new ≡ (conjunction_meets dims values self.old && not (asked_meets dims values asked))) }
    {
        self.denied.push(asked)?;
        Ok(())
    }
}
