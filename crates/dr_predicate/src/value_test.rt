ghost use Rattle.std.specs.Prelude.{◌≡◌, ℕ, List, IfOk, bytes_eq};
ghost use Rattle.std.specs.List.{list_any};
ghost use Rattle.dr_predicate.specs.Match.{passes as passes_of};

use crate::bounds::Bounds;
use crate::ranges::Ranges;
use dr_base::Text;
use dr_dict::TextSet;
use dr_like::fits;
use dr_patterns::Patterns;
use std::alloc::{AllocError, Global};

/// What is asked of the value of a dimension (Apache Druid documentation, query filters).
#[derive(Drop)]
pub enum ValueTest {
    /// `selector`: it is this text.
    Equals(Text),
    /// `in`: it is one of these texts.
    Among(TextSet),
    /// `bound`: it lies in this range.
    Within(Bounds),
    /// `bound`s of which one is to hold: it lies in one of these ranges.
    WithinOne(Ranges),
    /// `like`: it fits this pattern, in which `%` is any run of characters and `_` one Unicode scalar value.
    Like(Text),
    /// `like`s of which one is to hold: it fits one of these patterns.
    LikeOne(Patterns),
}

impl ValueTest {
    /// Whether a value passes. It takes no memory, and expected time by the bytes of the value; the number of texts of an `in`
    /// doesn't count, and the number of ranges that are asked together counts by its logarithm. For a pattern it takes time by
    /// the bytes of the pattern and of the value together, but for a piece between two `%` that has a `_` behind its first other
    /// character: at worst such a piece takes its own bytes times those of the value. For patterns that are asked together it takes
    /// what [`Patterns::hold`](dr_patterns::Patterns::hold) says.
    pub fn passes(&self, value: &str) -> bool
        ensures { result ≡ passes_of self.now value.now }
    {
        match self {
            ValueTest::Equals(text) => value == text.as_str(),
            ValueTest::Among(texts) => texts.contains(value),
            ValueTest::Within(bounds) => bounds.hold(value),
            ValueTest::WithinOne(ranges) => ranges.hold(value),
            ValueTest::Like(pattern) => fits(pattern.as_str(), value),
            ValueTest::LikeOne(patterns) => patterns.hold(value),
        }
    }

    // A test that the same values pass, in memory of its own.
    pub(crate) fn copy(&self, alloc: Global) -> Result<ValueTest, AllocError>
        ensures { IfOk result (λ t. (value : List ℕ) → passes_of t value ≡ passes_of self.now value) }
    {
        match self {
            ValueTest::Equals(text) => Ok(ValueTest::Equals(text.copy()?)),
            ValueTest::Among(texts) => Ok(ValueTest::Among(copied(alloc, texts)?)),
            ValueTest::Within(bounds) => Ok(ValueTest::Within(bounds.copy()?)),
            ValueTest::WithinOne(ranges) => Ok(ValueTest::WithinOne(ranges.copy(alloc)?)),
            ValueTest::Like(pattern) => Ok(ValueTest::Like(pattern.copy()?)),
            ValueTest::LikeOne(patterns) => Ok(ValueTest::LikeOne(patterns.copy()?)),
        }
    }
}

// The same texts, in memory of their own.
fn copied(alloc: Global, texts: &TextSet) -> Result<TextSet, AllocError>
    ensures { IfOk result (λ copy. (value : List ℕ) → list_any (bytes_eq value) copy ≡ list_any (bytes_eq value) texts.now) }
{
    let mut copy = TextSet::new(alloc);
    copy.add_all(texts)?;
    Ok(copy)
}
