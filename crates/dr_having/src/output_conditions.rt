ghost use Rattle.std.specs.Prelude.{◌≡◌, ◌&&◌, true, ℕ, ℤ, List, OnOk, IfOk};
ghost use Rattle.dr_having.specs.Collected.{all_numbers, all_texts, conditions_meet};
ghost use Rattle.dr_having.specs.LookUps.{is_among_at, is_found};
ghost use Rattle.dr_base.specs.Told.{told};
ghost use Rattle.dr_having.specs.OutputMeets.{output_meets, outputs_meet};

use crate::asked_output::AskedOutput;
use crate::number_conditions::NumberConditions;
use crate::number_look_up::NumberLookUp;
use crate::text_conditions::TextConditions;
use crate::text_look_up::TextLookUp;
use indexmap::IndexMap;
use std::alloc::{AllocError, Global};

/// Conditions on outputs that are all to hold, gathered output by output.
#[derive(Debug, Drop)]
pub struct OutputConditions {
    pub numbers: Vec<NumberConditions>,
    pub texts: Vec<TextConditions>,
    // Where the conditions on each aggregation and on each dimension stand.
    number_places: IndexMap<usize, usize>,
    text_places: IndexMap<usize, usize>,
}

impl OutputConditions {
    // No condition. It takes no memory yet.
    pub(crate) fn new(alloc: Global) -> OutputConditions
        ensures { (dims : List (List ℕ)) (values : List ℤ) → conditions_meet dims values result ≡ true }
    {
        OutputConditions {
            numbers: Vec::new(alloc),
            texts: Vec::new(alloc),
            number_places: IndexMap::new(alloc),
            text_places: IndexMap::new(alloc),
        }
    }

    // What is asked of each output.
    pub(crate) fn asked(&self, alloc: Global) -> Result<Vec<AskedOutput>, AllocError>
        ensures { IfOk result (λ asked. (dims : List (List ℕ)) (values : List ℤ) → outputs_meet dims values asked.items ≡ conditions_meet dims values self.now) }
    {
        let mut asked = Vec::new(alloc);
        push_numbers(alloc, &mut asked, self.numbers.as_slice())?;
        push_texts(alloc, &mut asked, self.texts.as_slice())?;
        Ok(asked)
    }

    // Adds what is asked of one output.
    pub(crate) fn add(&mut self, alloc: Global, output: AskedOutput) -> Result<(), AllocError>
        ensures { OnOk result ((dims : List (List ℕ)) (values : List ℤ) → conditions_meet dims values self.new ≡ (conditions_meet dims values self.old && output_meets dims values output)) }
    {
        match output {
            AskedOutput::Number(look_up) => self.add_number(alloc, look_up),
            AskedOutput::Text(look_up) => self.add_text(alloc, look_up, true),
            AskedOutput::NoText(look_up) => self.add_text(alloc, look_up, false),
        }
    }

    // Adds that the value of an aggregation is one of some numbers.
    fn add_number(&mut self, alloc: Global, look_up: NumberLookUp) -> Result<(), AllocError>
        ensures { OnOk result ((dims : List (List ℕ)) (values : List ℤ) → conditions_meet dims values self.new ≡ (conditions_meet dims values self.old && is_among_at values look_up)) }
    {
        let likely = *self
            .number_places
            .entry(look_up.place)?
            .or_insert(self.numbers.len());
        put_number(alloc, &mut self.numbers, likely, look_up)
    }

    // Adds that the value of a dimension is one of some texts, or that it is none.
    fn add_text(
        &mut self,
        alloc: Global,
        look_up: TextLookUp,
        holds: bool,
    ) -> Result<(), AllocError>
        ensures { OnOk result ((dims : List (List ℕ)) (values : List ℤ) → conditions_meet dims values self.new ≡ (conditions_meet dims values self.old && told holds (is_found dims look_up))) }
    {
        let likely = *self
            .text_places
            .entry(look_up.place)?
            .or_insert(self.texts.len());
        put_text(alloc, &mut self.texts, likely, look_up, holds)
    }
}

// Adds numbers to the conditions at a place, where these are on the same aggregation, or behind all.
fn put_number(
    alloc: Global,
    numbers: &mut Vec<NumberConditions>,
    likely: usize,
    look_up: NumberLookUp,
) -> Result<(), AllocError>
    ensures { OnOk result ((values : List ℤ) → all_numbers values numbers.new.items ≡ (all_numbers values numbers.old.items && is_among_at values look_up)) }
{
    if likely < numbers.len() && numbers[likely].place == look_up.place {
        let conditions = &mut numbers[likely];
        conditions.sets.push(look_up.steps)?;
        return Ok(());
    }
    numbers.push(NumberConditions::of(alloc, look_up)?)?;
    Ok(())
}

// Adds texts to the conditions at a place, where these are on the same dimension, or behind all.
fn put_text(
    alloc: Global,
    texts: &mut Vec<TextConditions>,
    likely: usize,
    look_up: TextLookUp,
    holds: bool,
) -> Result<(), AllocError>
    ensures { OnOk result ((dims : List (List ℕ)) → all_texts dims texts.new.items ≡ (all_texts dims texts.old.items && told holds (is_found dims look_up))) }
{
    if likely < texts.len() && texts[likely].place == look_up.place {
        let conditions = &mut texts[likely];
        return conditions.add(look_up.texts, holds);
    }
    let mut conditions = TextConditions::new(alloc, look_up.place);
    conditions.add(look_up.texts, holds)?;
    texts.push(conditions)?;
    Ok(())
}

// Puts what is asked of each aggregation behind other things.
fn push_numbers(
    alloc: Global,
    asked: &mut Vec<AskedOutput>,
    numbers: &[NumberConditions],
) -> Result<(), AllocError>
    ensures { OnOk result ((dims : List (List ℕ)) (values : List ℤ) → outputs_meet dims values asked.new.items ≡ (outputs_meet dims values asked.old.items && all_numbers values numbers.now)) }
{
    for conditions in numbers {
        asked.push(AskedOutput::Number(conditions.asked(alloc)?))?;
    }
    Ok(())
}

// Puts what is asked of each dimension behind other things.
fn push_texts(
    alloc: Global,
    asked: &mut Vec<AskedOutput>,
    texts: &[TextConditions],
) -> Result<(), AllocError>
    ensures { OnOk result ((dims : List (List ℕ)) (values : List ℤ) → outputs_meet dims values asked.new.items ≡ (outputs_meet dims values asked.old.items && all_texts dims texts.now)) }
{
    for conditions in texts {
        asked.push(conditions.asked(alloc)?)?;
    }
    Ok(())
}
