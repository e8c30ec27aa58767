ghost use Rattle.std.specs.Prelude.{◌≡◌, Some, refl, IfOk, bytes_eq, string_bytes};
ghost use Rattle.std.specs.Ordering.{nat_cmp};
ghost use Rattle.std.specs.Cmp.{partial_equiv_from_equiv};
ghost use Rattle.std.specs.Cmp.Lexicographic.{slice_cmp, nat_list_eq_equiv, nat_list_cmp_total, texts_ties, texts_po};
ghost use Rattle.std.specs.Hash as fed;
ghost use Rattle.std.specs.Cmp.Rules.{hashing};
ghost use Rattle.std.proofs.Common.{rules};

use crate::short_text::ShortText;
use std::alloc::{AllocError, Global};
use std::cmp::Ordering;
use std::fmt;
use std::hash::{Hash, Hasher};
use std::marker::Model;
use std::sync::Arc;

/// A text. A contract sees it as its bytes in UTF-8, and it is compared and ordered by them: a letter of more bytes comes
/// after one of fewer, and so letters are in the order of their Unicode scalar values (unlike in UTF-16).
///
/// A text of at most 14 bytes lies in the value itself, and takes no memory. A longer one lies in memory that its copies
/// share, so a copy takes none either. Either way the value has 16 bytes.
#[derive(Debug, Drop)]
pub struct Text(Kept);

/// Where a text lies.
#[derive(Debug, Drop)]
enum Kept {
    Short(ShortText),
    Long(Arc<String>),
}

impl Model for Text {
    ghost use Rattle.std.specs.Prelude.{ℕ, List};
    ghost use Rattle.dr_base.specs.Kept.{kept};

    ghost Value = { List ℕ };

    ghost view = { λ t. kept t.0 };
}

impl Text {
    /// The text in memory of its own, of which one of at most 14 bytes takes none. The only error is that memory ran out. It
    /// takes time by the bytes.
    pub fn from_str(alloc: Global, text: &str) -> Result<Text, AllocError>
        ensures { IfOk result (λ t. t ≡ text.now) }
    {
        match ShortText::of(text) {
            Some(short) => Ok(Text(Kept::Short(short))),
            None => Text::long(alloc, String::from_str(alloc, text)?),
        }
    }

    /// The text of a string. A string of at most 14 bytes is copied into the text and let go; a longer one is kept as it lies.
    /// The only error is that memory ran out. It takes constant time.
    pub fn from_string(alloc: Global, text: String) -> Result<Text, AllocError>
        ensures { IfOk result (λ t. t ≡ string_bytes text) }
    {
        match ShortText::of(text.as_str()) {
            Some(short) => Ok(Text(Kept::Short(short))),
            None => Text::long(alloc, text),
        }
    }

    // The text of a string, in memory that copies share.
    fn long(alloc: Global, text: String) -> Result<Text, AllocError>
        ensures { IfOk result (λ t. t ≡ string_bytes text) }
    {
        Ok(Text(Kept::Long(Arc::new(alloc, text)?)))
    }

    /// The text as Rust's text. Nothing is copied.
    pub fn as_str(&self) -> &str
        ensures { result.now ≡ self.now }
    {
        match &self.0 {
            Kept::Short(short) => short.as_str(),
            Kept::Long(shared) => shared.as_str(),
        }
    }

    /// An equal text, which takes no memory. The only error is that a longer text has 2^63 copies.
    pub fn copy(&self) -> Result<Text, AllocError>
        ensures { IfOk result (λ t. t ≡ self.now) }
    {
        match &self.0 {
            Kept::Short(short) => Ok(Text(Kept::Short(short.copy()))),
            Kept::Long(shared) => Ok(Text(Kept::Long(Arc::try_clone(shared)?))),
        }
    }
}

impl fmt::Display for Text {
    ghost output = { λ t. Some t };

    fn fmt<W: fmt::Write>(&self, f: &mut fmt::Formatter<W>) -> fmt::Result {
        fmt::Display::fmt(&self.as_str(), f)
    }
}

impl PartialEq for Text {
    ghost eq = { bytes_eq };

    ghost laws = { partial_equiv_from_equiv nat_list_eq_equiv };

    fn eq(&self, other: &Text) -> bool {
        self.as_str() == other.as_str()
    }
}

impl Eq for Text {
    ghost laws = { nat_list_eq_equiv };
}

impl PartialOrd for Text {
    ghost partial_cmp = { λ a b. Some (slice_cmp nat_cmp a b) };

    ghost laws = { texts_po };

    fn partial_cmp(&self, other: &Text) -> Option<Ordering> {
        Some(self.cmp(other))
    }
}

impl Ord for Text {
    ghost cmp = { slice_cmp nat_cmp };

    ghost total = { nat_list_cmp_total };

    ghost matches_partial_cmp = { λ a b. refl };

    ghost matches_eq = { texts_ties };

    fn cmp(&self, other: &Text) -> Ordering {
        self.as_str().cmp(other.as_str())
    }
}

impl Hash for Text {
    ghost hash_input = { fed.str };

    ghost respects_eq = { Prim.search (hashing, rules) };

    fn hash<H: Hasher>(&self, state: &mut H) {
        self.as_str().hash(state);
    }
}
