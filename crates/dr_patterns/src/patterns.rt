ghost use Rattle.std.specs.Prelude.{◌≡◌, IfOk};
ghost use Rattle.dr_patterns.specs.Fitting.{fits_some, FitSame};

use crate::by_kind::ByKind;
use crate::gathered::Gathered;
use dr_base::Text;
use std::alloc::{AllocError, Global};
use std::marker::Model;
use std::sync::Arc;

/// Patterns of `like` (Apache Druid documentation, query filters: like) of which a text is to fit one, asked all together. A contract
/// sees a list of patterns, of which a text fits one just where it fits one of those that were given.
#[derive(Drop)]
pub struct Patterns(Arc<ByKind>);

impl Model for Patterns {
    ghost use Rattle.std.specs.Prelude.{ℕ, List};
    ghost use Rattle.std.specs.Arc.{arc_value};

    ghost Value = { List (List ℕ) };

    ghost view = { λ p. arc_value p.0 };
}

impl Patterns {
    /// Some patterns, of which a text is to fit one. The only error is that memory ran out. It takes expected time and memory by the
    /// bytes of the patterns; those that are `x%`, `%x` or `%x%`, with an `x` without `%` and `_`, are sorted, which takes n log n
    /// comparisons of texts.
    pub fn of(alloc: Global, patterns: &[Text]) -> Result<Patterns, AllocError>
        ensures { IfOk result (λ p. FitSame p patterns.now) }
    {
        let gathered = gathered_of(alloc, patterns)?;
        let sorted = ByKind::of(alloc, gathered)?;
        Ok(Patterns(Arc::new(alloc, sorted)?))
    }

    /// Whether a text fits one of the patterns. It takes no memory. A pattern without `%` and `_` is found by hashing, in expected
    /// time by the bytes of the text. All patterns that are `x%`, with an `x` without `%` and `_`, take time by the bytes of the text
    /// times the logarithm of their number, and so do all that are `%x`. All that are `%x%`, with such an `x` of at most 1,000 bytes,
    /// take for each character of the text a search in logarithmic time, which compares the text from there on with as many of
    /// these `x`, each up to the first byte that differs. Each other pattern is tried by itself, as `fits` of `dr_like` does, and so
    /// is each that is `%x%` where there are fewer than 16 of them.
    pub fn hold(&self, text: &str) -> bool
        ensures { result ≡ fits_some self.now text.now }
    {
        self.0.hold(text)
    }

    /// The same patterns, which are shared and not copied. The only error is that they are shared 2^63 times. It takes constant time
    /// and no memory.
    pub fn copy(&self) -> Result<Patterns, AllocError>
        ensures { IfOk result (λ p. p ≡ self.now) }
    {
        Ok(Patterns(Arc::try_clone(&self.0)?))
    }
}

fn gathered_of(alloc: Global, patterns: &[Text]) -> Result<Gathered, AllocError>
    ensures { IfOk result (λ g. FitSame g patterns.now) }
{
    let mut gathered = Gathered::new(alloc);
    for pattern in patterns {
        gathered.add(alloc, pattern)?;
    }
    Ok(gathered)
}
