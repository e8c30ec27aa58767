use crate::over::Over;

/// What came of comparing a piece of a pattern with the start of a text.
pub enum Walked<'t> {
    /// The piece fits, and this follows it in the text.
    Behind(&'t str),
    /// This letter of the piece doesn't fit what it stands over.
    Differs(Over<'t>),
    /// The text ends before the piece does.
    TextEnds,
}
