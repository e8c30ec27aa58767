ghost use Rattle.std.specs.Prelude.{◌≡◌, ◌&&◌, not, true, ℕ, List, OnOk};
ghost use Rattle.dr_base.specs.Told.{told};
ghost use Rattle.dr_patterns.specs.Fitting.{fits_text};
ghost use Rattle.dr_predicate.specs.Asked.{apart_told};
ghost use Rattle.dr_predicate.specs.Match.{passes};

use crate::told_test::ToldTest;
use crate::value_test::ValueTest;
use dr_base::Text;
use dr_patterns::runs_joined;
use std::alloc::{AllocError, Global};

/// What is asked of a value beside texts and ranges: patterns of which it is to fit each, patterns of which it is to fit none, and
/// other tests.
#[derive(Drop)]
pub struct Apart {
    pub patterns: Vec<Text>,
    pub no_patterns: Vec<Text>,
    pub others: Vec<ToldTest>,
}

impl Apart {
    // Nothing.
    pub(crate) fn new(alloc: Global) -> Apart
        ensures { (value : List ℕ) → apart_told result value ≡ true }
    {
        Apart {
            patterns: Vec::new(alloc),
            no_patterns: Vec::new(alloc),
            others: Vec::new(alloc),
        }
    }

    // Asks that a test holds, or that it doesn't.
    pub(crate) fn add(
        &mut self,
        alloc: Global,
        test: ValueTest,
        holds: bool,
    ) -> Result<(), AllocError>
        ensures { OnOk result ((value : List ℕ) → apart_told self.new value ≡ (apart_told self.old value && told holds (passes test value))) }
    {
        match test {
            ValueTest::Like(pattern) => self.add_pattern(alloc, pattern, holds),
            other => self.add_other(other, holds),
        }
    }

    // Of a pattern each `%` that follows another one is left out.
    fn add_pattern(&mut self, alloc: Global, pattern: Text, holds: bool) -> Result<(), AllocError>
        ensures { OnOk result ((value : List ℕ) → apart_told self.new value ≡ (apart_told self.old value && told holds (fits_text pattern value))) }
    {
        let joined = runs_joined(alloc, pattern.as_str())?;
        if holds {
            self.add_fit(joined)
        } else {
            self.add_no_pattern(joined)
        }
    }

    fn add_fit(&mut self, pattern: Text) -> Result<(), AllocError>
        ensures { OnOk result ((value : List ℕ) → apart_told self.new value ≡ (apart_told self.old value && fits_text pattern value)) }
    {
        self.patterns.push(pattern)?;
        Ok(())
    }

    fn add_no_pattern(&mut self, pattern: Text) -> Result<(), AllocError>
        ensures { OnOk result ((value : List ℕ) → apart_told self.new value ≡ (apart_told self.old value && not (fits_text pattern value))) }
    {
        self.no_patterns.push(pattern)?;
        Ok(())
    }

    fn add_other(&mut self, test: ValueTest, holds: bool) -> Result<(), AllocError>
        ensures { OnOk result ((value : List ℕ) → apart_told self.new value ≡ (apart_told self.old value && told holds (passes test value))) }
    {
        self.others.push(ToldTest { test, holds })?;
        Ok(())
    }
}
