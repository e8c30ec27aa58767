ghost use Rattle.std.specs.Prelude.{◌≡◌, not, ℕ, ℤ, List};
ghost use Rattle.dr_base.specs.Told.{told};
ghost use Rattle.dr_having.specs.OutputMeets.{output_meets};

use crate::number_look_up::NumberLookUp;
use crate::text_look_up::TextLookUp;
use dr_outputs::{OutputNumbers, OutputTexts};

/// What is asked of one output, in the place of all conditions on it.
#[derive(Debug, Drop)]
pub enum AskedOutput {
    /// The value of an aggregation is one of some numbers.
    Number(NumberLookUp),
    /// The value of a dimension is one of some texts.
    Text(TextLookUp),
    /// The value of a dimension is none of some texts.
    NoText(TextLookUp),
}

impl AskedOutput {
    // The same, where it is to hold, or else the opposite.
    pub(crate) fn wanted(self, holds: bool) -> AskedOutput
        ensures { (dims : List (List ℕ)) (values : List ℤ) → output_meets dims values result ≡ told holds (output_meets dims values self) }
    {
        if holds {
            return self;
        }
        self.opposite()
    }

    // That it isn't so.
    pub(crate) fn opposite(self) -> AskedOutput
        ensures { (dims : List (List ℕ)) (values : List ℤ) → output_meets dims values result ≡ not (output_meets dims values self) }
    {
        match self {
            AskedOutput::Number(look_up) => AskedOutput::Number(look_up.others()),
            AskedOutput::Text(look_up) => AskedOutput::NoText(look_up),
            AskedOutput::NoText(look_up) => AskedOutput::Text(look_up),
        }
    }

    /// Whether it is so of a group. It takes no memory, and logarithmic time by the conditions on an aggregation, or expected time by
    /// the bytes of the value of a dimension.
    pub fn holds_of(&self, dims: &OutputTexts<'_>, values: &OutputNumbers<'_>) -> bool
        ensures { result ≡ output_meets dims.now values.now self.now }
    {
        match self {
            AskedOutput::Number(look_up) => look_up.finds(values),
            AskedOutput::Text(look_up) => look_up.finds(dims),
            AskedOutput::NoText(look_up) => !look_up.finds(dims),
        }
    }
}
