ghost use Rattle.std.specs.Prelude.{◌≡◌, ◌&&◌, not, true, ℕ, List, IfOk, bytes_eq};
ghost use Rattle.dr_predicate.specs.Ends.{starts_behind as starts_behind_of, ends_before as ends_before_of};
ghost use Rattle.dr_predicate.specs.Ranges.{start_text as start_text_of, start_strict as start_strict_of, lies_open, begun as begun_of, unended as unended_of};
ghost use Rattle.dr_predicate.specs.Within.{lies_within, not_before as not_before_of, not_after as not_after_of, comes_after as comes_after_of};

use dr_base::Text;
use std::alloc::{AllocError, Global};
use std::cmp::Ordering;

/// The ends of a range of texts in the order of their UTF-8 bytes. An end that is absent bounds nothing, and a strict one
/// isn't itself in the range.
#[derive(Debug, Drop)]
pub struct Bounds {
    pub lower: Option<Text>,
    pub upper: Option<Text>,
    pub lower_strict: bool,
    pub upper_strict: bool,
}

impl Bounds {
    // Every text.
    pub(crate) fn every_text() -> Bounds
        ensures { (text : List ℕ) → lies_within result text ≡ true }
    {
        Bounds {
            lower: None,
            upper: None,
            lower_strict: false,
            upper_strict: false,
        }
    }

    /// One text alone. The only error is that memory ran out. It takes time by the bytes of the text.
    pub fn one_text(alloc: Global, text: &str) -> Result<Bounds, AllocError>
        ensures { IfOk result (λ b. (value : List ℕ) → lies_within b value ≡ bytes_eq value text.now) }
    {
        Ok(Bounds {
            lower: Some(Text::from_str(alloc, text)?),
            upper: Some(Text::from_str(alloc, text)?),
            lower_strict: false,
            upper_strict: false,
        })
    }

    // Whether it has no end.
    pub(crate) fn is_open(&self) -> bool
        ensures { result ≡ true → (text : List ℕ) → lies_within self.now text ≡ true }
    {
        self.lower.is_none() && self.upper.is_none()
    }

    /// Whether a text lies in the range. It takes no memory, and time by the bytes of the text.
    pub fn hold(&self, text: &str) -> bool
        ensures { result ≡ lies_within self.now text.now }
    {
        self.begun(text) && self.unended(text)
    }

    /// Whether a text is none that comes before the range: so are those that come behind the first that isn't. It takes no memory, and
    /// time by the bytes of the text.
    pub fn begun(&self, text: &str) -> bool
        ensures { result ≡ begun_of text.now self.now }
    {
        not_before(&self.lower, self.lower_strict, text)
    }

    /// Whether a text is none that comes behind the range: so are those that come before the last that isn't. It takes no memory, and
    /// time by the bytes of the text.
    pub fn unended(&self, text: &str) -> bool
        ensures { result ≡ unended_of text.now self.now }
    {
        not_after(&self.upper, self.upper_strict, text)
    }

    // An equal range.
    pub(crate) fn copy(&self) -> Result<Bounds, AllocError>
        ensures { IfOk result (λ b. b ≡ self.now) }
    {
        Ok(Bounds {
            lower: copy_of(&self.lower)?,
            upper: copy_of(&self.upper)?,
            lower_strict: self.lower_strict,
            upper_strict: self.upper_strict,
        })
    }

    // Narrows the range to the texts that lie in another one too: the greater of the lower ends, and the smaller of the upper
    // ends, strict where either of two equal ones is.
    pub(crate) fn narrow(&mut self, other: Bounds)
        ensures { (text : List ℕ) → lies_within self.new text ≡ (lies_within self.old text && lies_within other text) }
    {
        let Bounds {
            lower,
            upper,
            lower_strict,
            upper_strict,
        } = other;
        self.narrow_lower(lower, lower_strict);
        self.narrow_upper(upper, upper_strict);
    }

    fn narrow_lower(&mut self, lower: Option<Text>, strict: bool)
        ensures { (text : List ℕ) → lies_within self.new text ≡ (lies_within self.old text && not_before_of lower strict text) }
    {
        if !starts_behind(&lower, strict, &self.lower) {
            return;
        }
        self.lower = lower;
        self.lower_strict = strict;
    }

    fn narrow_upper(&mut self, upper: Option<Text>, strict: bool)
        ensures { (text : List ℕ) → lies_within self.new text ≡ (lies_within self.old text && not_after_of upper strict text) }
    {
        if !ends_before(&upper, strict, &self.upper) {
            return;
        }
        self.upper = upper;
        self.upper_strict = strict;
    }
}

// The texts that come before a lower end.
pub(crate) fn before(alloc: Global, lower: Option<Text>, strict: bool) -> Result<Bounds, AllocError>
    ensures { IfOk result (λ b. (text : List ℕ) → lies_within b text ≡ not (not_before_of lower strict text)) }
{
    let upper_strict = !start_strict(&lower, strict);
    let upper = start(alloc, lower)?;
    Ok(Bounds {
        lower: None,
        upper: Some(upper),
        lower_strict: false,
        upper_strict,
    })
}

// The texts that come behind an upper end, none where it is absent.
pub(crate) fn behind(upper: Option<Text>, strict: bool) -> Option<Bounds>
    ensures { (text : List ℕ) → lies_open result text ≡ not (not_after_of upper strict text) }
{
    let Some(upper) = upper else {
        return None;
    };
    Some(Bounds {
        lower: Some(upper),
        upper: None,
        lower_strict: !strict,
        upper_strict: false,
    })
}

// The lower end as a text of its own: where it is absent, the least one.
fn start(alloc: Global, lower: Option<Text>) -> Result<Text, AllocError>
    ensures { IfOk result (λ t. t ≡ start_text_of lower) }
{
    match lower {
        Some(lower) => Ok(lower),
        None => Text::from_str(alloc, ""),
    }
}

// The lower end as a text: where it is absent, the least one.
pub(crate) fn start_text(lower: &Option<Text>) -> &str
    ensures { result.now ≡ start_text_of lower.now }
{
    match lower {
        Some(lower) => lower.as_str(),
        None => "",
    }
}

pub(crate) fn start_strict(lower: &Option<Text>, strict: bool) -> bool
    ensures { result ≡ start_strict_of lower.now strict }
{
    match lower {
        Some(_) => strict,
        None => false,
    }
}

fn copy_of(end: &Option<Text>) -> Result<Option<Text>, AllocError>
    ensures { IfOk result (λ e. e ≡ end.now) }
{
    match end {
        Some(text) => Ok(Some(text.copy()?)),
        None => Ok(None),
    }
}

// Whether a lower end asks more than another one, or as much.
fn starts_behind(lower: &Option<Text>, strict: bool, other: &Option<Text>) -> bool
    ensures { result ≡ starts_behind_of lower.now strict other.now }
{
    let Some(lower) = lower else {
        return false;
    };
    match other {
        Some(other) => comes_after(lower.as_str().cmp(other.as_str()), !strict),
        None => true,
    }
}

// Whether an upper end asks more than another one, or as much.
pub(crate) fn ends_before(upper: &Option<Text>, strict: bool, other: &Option<Text>) -> bool
    ensures { result ≡ ends_before_of upper.now strict other.now }
{
    let Some(upper) = upper else {
        return false;
    };
    match other {
        Some(other) => comes_after(other.as_str().cmp(upper.as_str()), !strict),
        None => true,
    }
}

pub(crate) fn not_before(lower: &Option<Text>, strict: bool, text: &str) -> bool
    ensures { result ≡ not_before_of lower.now strict text.now }
{
    match lower {
        Some(lower) => comes_after(text.cmp(lower.as_str()), strict),
        None => true,
    }
}

pub(crate) fn not_after(upper: &Option<Text>, strict: bool, text: &str) -> bool
    ensures { result ≡ not_after_of upper.now strict text.now }
{
    match upper {
        Some(upper) => comes_after(upper.as_str().cmp(text), strict),
        None => true,
    }
}

fn comes_after(order: Ordering, strict: bool) -> bool
    ensures { result ≡ comes_after_of order strict }
{
    match order {
        Ordering::Less => false,
        Ordering::Equal => !strict,
        Ordering::Greater => true,
    }
}
