ghost use Rattle.std.specs.Prelude.{◌≡◌, ◌&&◌, not, true, ℕ, List, OnOk};
ghost use Rattle.dr_base.specs.Told.{told};
ghost use Rattle.dr_predicate.specs.Asked.{all_asked, is_among};
ghost use Rattle.dr_predicate.specs.Match.{passes, some_within};

use crate::apart::Apart;
use crate::asked_texts::AskedTexts;
use crate::bounds::Bounds;
use crate::value_test::ValueTest;
use std::alloc::{AllocError, Global};

/// What is asked of one value, joined as it comes: that it is one of some texts, where any are asked for, that it lies in a range,
/// that it is none of some other texts and lies in none of some other ranges, and what stands apart.
#[derive(Drop)]
pub struct ValueTests {
    pub texts: Option<AskedTexts>,
    pub within: Bounds,
    pub no_texts: Option<AskedTexts>,
    pub no_ranges: Vec<Bounds>,
    pub apart: Apart,
}

impl ValueTests {
    // Nothing.
    pub(crate) fn new(alloc: Global) -> ValueTests
        ensures { (value : List ℕ) → all_asked result value ≡ true }
    {
        ValueTests {
            texts: None,
            within: Bounds::every_text(),
            no_texts: None,
            no_ranges: Vec::new(alloc),
            apart: Apart::new(alloc),
        }
    }

    // Asks that a test holds, or that it doesn't.
    pub(crate) fn add(
        &mut self,
        alloc: Global,
        test: ValueTest,
        holds: bool,
    ) -> Result<(), AllocError>
        ensures { OnOk result ((value : List ℕ) → all_asked self.new value ≡ (all_asked self.old value && told holds (passes test value))) }
    {
        if holds {
            self.ask(alloc, test)
        } else {
            self.deny(alloc, test)
        }
    }

    fn ask(&mut self, alloc: Global, test: ValueTest) -> Result<(), AllocError>
        ensures { OnOk result ((value : List ℕ) → all_asked self.new value ≡ (all_asked self.old value && passes test value)) }
    {
        match test {
            ValueTest::Equals(text) => self.ask_texts(alloc, AskedTexts::One(text))?,
            ValueTest::Among(texts) => self.ask_texts(alloc, AskedTexts::Several(texts))?,
            ValueTest::Within(bounds) => self.within.narrow(bounds),
            ValueTest::WithinOne(ranges) => self.deny_ranges(ranges.into_gaps(alloc)?)?,
            apart => self.add_apart(alloc, apart, true)?,
        }
        Ok(())
    }

    fn deny(&mut self, alloc: Global, test: ValueTest) -> Result<(), AllocError>
        ensures { OnOk result ((value : List ℕ) → all_asked self.new value ≡ (all_asked self.old value && not (passes test value))) }
    {
        match test {
            ValueTest::Equals(text) => self.deny_texts(alloc, AskedTexts::One(text))?,
            ValueTest::Among(texts) => self.deny_texts(alloc, AskedTexts::Several(texts))?,
            ValueTest::Within(bounds) => self.no_ranges.push(bounds)?,
            ValueTest::WithinOne(ranges) => self.deny_ranges(ranges.into_bounds())?,
            apart => self.add_apart(alloc, apart, false)?,
        }
        Ok(())
    }

    // Asks for texts, of which those stay that are asked for already.
    fn ask_texts(&mut self, alloc: Global, texts: AskedTexts) -> Result<(), AllocError>
        ensures { OnOk result ((value : List ℕ) → all_asked self.new value ≡ (all_asked self.old value && is_among texts value)) }
    {
        match &mut self.texts {
            Some(there) => there.keep(alloc, &texts)?,
            None => self.texts = Some(texts),
        }
        Ok(())
    }

    fn deny_texts(&mut self, alloc: Global, texts: AskedTexts) -> Result<(), AllocError>
        ensures { OnOk result ((value : List ℕ) → all_asked self.new value ≡ (all_asked self.old value && not (is_among texts value))) }
    {
        match &mut self.no_texts {
            Some(there) => there.add(alloc, &texts)?,
            None => self.no_texts = Some(texts),
        }
        Ok(())
    }

    fn deny_ranges(&mut self, ranges: Vec<Bounds>) -> Result<(), AllocError>
        ensures { OnOk result ((value : List ℕ) → all_asked self.new value ≡ (all_asked self.old value && not (some_within ranges.items value))) }
    {
        let mut ranges = ranges;
        self.no_ranges.append(&mut ranges)?;
        Ok(())
    }

    fn add_apart(&mut self, alloc: Global, test: ValueTest, holds: bool) -> Result<(), AllocError>
        ensures { OnOk result ((value : List ℕ) → all_asked self.new value ≡ (all_asked self.old value && told holds (passes test value))) }
    {
        self.apart.add(alloc, test, holds)?;
        Ok(())
    }
}
