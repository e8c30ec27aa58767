ghost use Rattle.std.specs.Prelude.{◌≡◌, ℕ, List, IfOk};
ghost use Rattle.dr_having.specs.LookUps.{is_found};
ghost use Rattle.dr_having.specs.Meeting.{meets_dimension};

use crate::dimension_value::DimensionValue;
use dr_dict::TextSet;
use dr_outputs::OutputTexts;
use std::alloc::{AllocError, Global};

/// The texts that conditions on the value of one dimension name, and the place of the dimension.
#[derive(Debug, Drop)]
pub struct TextLookUp {
    pub place: usize,
    pub texts: TextSet,
}

impl TextLookUp {
    // The text of one condition.
    pub(crate) fn of(alloc: Global, condition: &DimensionValue) -> Result<TextLookUp, AllocError>
        ensures { IfOk result (λ l. (dims : List (List ℕ)) → is_found dims l ≡ meets_dimension condition.now dims) }
    {
        let mut texts = TextSet::new(alloc);
        texts.add(&condition.value)?;
        Ok(TextLookUp {
            place: condition.place,
            texts,
        })
    }

    /// Whether the value of the dimension is one of the texts. It takes no memory, and expected time by the bytes of the value,
    /// however many texts there are.
    pub fn finds(&self, dims: &OutputTexts<'_>) -> bool
        ensures { result ≡ is_found dims.now self.now }
    {
        self.texts.contains(dims.at(self.place))
    }
}
