ghost use Rattle.std.specs.Prelude.{◌≡◌, ◌||◌, ℕ, List, IfOk, OnOk};
ghost use Rattle.dr_patterns.specs.Divided.{fits_divided};
ghost use Rattle.dr_patterns.specs.Fitting.{fits_some, fits_text};

use crate::kind::{Kind, kind_of};
use dr_base::Text;
use std::alloc::{AllocError, Global};

// How many patterns are tests of their own at least: fewer are tried where the others are asked.
const MANY: usize = 32;

// For so many bytes a pattern counts for one more.
const LONG: usize = 128;

/// Patterns of `like` (Apache Druid documentation, query filters: like) of which a text is to fit one, in two lists: those that are
/// asked together, and those that are tests of their own.
#[derive(Drop)]
pub struct DividedPatterns {
    /// Those that are asked together, as [`Patterns`](crate::Patterns).
    pub together: Vec<Text>,
    /// Those of which each has to be tried, so that many texts are soonest asked for each of them at once.
    pub tried: Vec<Text>,
}

impl DividedPatterns {
    /// Patterns of which a text is to fit one. Those of no usual form are tests of their own, where they are 32 or more; one counts for one
    /// more for each 128 bytes. The only error is that memory ran out. It takes time by the bytes of the patterns, and memory by their
    /// number.
    pub fn of(alloc: Global, patterns: Vec<Text>) -> Result<DividedPatterns, AllocError>
        ensures { IfOk result (λ d. (text : List ℕ) → fits_divided d text ≡ fits_some patterns.items text) }
    {
        let divided = divided_by_kind(alloc, patterns)?;
        divided.joined_where_few(alloc)
    }

    // Adds a pattern, by what it asks of a text.
    fn add(&mut self, pattern: Text) -> Result<(), AllocError>
        ensures { OnOk result ((text : List ℕ) → fits_divided self.new text ≡ (fits_divided self.old text || fits_text pattern text)) }
    {
        match kind_of(pattern.as_str()) {
            Kind::Other => self.add_tried(pattern),
            _ => self.add_together(pattern),
        }
    }

    fn add_together(&mut self, pattern: Text) -> Result<(), AllocError>
        ensures { OnOk result ((text : List ℕ) → fits_divided self.new text ≡ (fits_divided self.old text || fits_text pattern text)) }
    {
        self.together.push(pattern)?;
        Ok(())
    }

    fn add_tried(&mut self, pattern: Text) -> Result<(), AllocError>
        ensures { OnOk result ((text : List ℕ) → fits_divided self.new text ≡ (fits_divided self.old text || fits_text pattern text)) }
    {
        self.tried.push(pattern)?;
        Ok(())
    }

    // The same, where few are to be tried all together.
    fn joined_where_few(self, alloc: Global) -> Result<DividedPatterns, AllocError>
        ensures { IfOk result (λ d. (text : List ℕ) → fits_divided d text ≡ fits_divided self text) }
    {
        if are_many(self.tried.as_slice()) {
            return Ok(self);
        }
        let DividedPatterns {
            mut together,
            mut tried,
        } = self;
        together.append(&mut tried)?;
        Ok(DividedPatterns {
            together,
            tried: Vec::new(alloc),
        })
    }
}

// Whether some patterns are so many, or so long, that many texts are soonest asked for each of them at once.
fn are_many(patterns: &[Text]) -> bool {
    let mut count = 0usize;
    for pattern in patterns {
        count = count.saturating_add(1 + pattern.as_str().len() / LONG);
    }
    count >= MANY
}

fn divided_by_kind(alloc: Global, patterns: Vec<Text>) -> Result<DividedPatterns, AllocError>
    ensures { IfOk result (λ d. (text : List ℕ) → fits_divided d text ≡ fits_some patterns.items text) }
{
    let mut divided = DividedPatterns {
        together: Vec::new(alloc),
        tried: Vec::new(alloc),
    };
    for pattern in patterns {
        divided.add(pattern)?;
    }
    Ok(divided)
}
