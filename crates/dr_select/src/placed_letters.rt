use dr_letters::LetterRows;

// Rows with the characters of their values at a place among the dimensions.
#[derive(Drop)]
pub struct PlacedLetters<'a> {
    pub place: Option<usize>,
    pub letters: LetterRows<'a>,
}
