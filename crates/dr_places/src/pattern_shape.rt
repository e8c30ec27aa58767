// A piece without gaps of no more bytes is looked for as soon where the letters of a text stand as from character to character.
const SHORT: usize = 8;

// A text is asked letter by letter where it has no more letters for each piece than this, divided by the bytes of the longest piece behind
// its first, which may be compared at each of them; more, where it is kept in more bytes than the nearest caches hold where the letters of the
// pattern stand.
const NEAR: usize = 24;

const FAR: usize = 128;

const NEAR_BYTES: usize = 1 << 20;

/// What the time depends on in which a text is asked for a pattern: how many pieces it has between its runs, how many characters these have
/// together, of how many kinds, about, how many bytes the longest of them has, and whether one of them has a `_` behind its first other
/// character.
#[derive(Drop)]
pub struct PatternShape {
    pub pieces: usize,
    pub letters: usize,
    pub kinds: usize,
    pub longest: usize,
    pub has_gaps: bool,
}

impl PatternShape {
    /// The shape of a pattern. It takes time by its bytes.
    pub fn of_pattern(pattern: &str) -> PatternShape {
        let mut pieces = 0usize;
        let mut letters = 0usize;
        let mut kinds = 0u64;
        let mut longest = 0usize;
        let mut has_gaps = false;
        for piece in pattern.split('%') {
            pieces = pieces.saturating_add(1);
            for letter in piece.chars() {
                letters = letters.saturating_add(1);
                kinds |= 1 << (letter as usize % 64);
            }
            longest = longest.max(piece.len());
            has_gaps = has_gaps || piece.trim_start_matches('_').contains('_');
        }
        PatternShape {
            pieces,
            letters,
            kinds: kinds.count_ones() as usize,
            longest,
            has_gaps,
        }
    }

    /// How many characters the pieces have besides one each. It takes constant time.
    pub fn others(&self) -> usize {
        self.letters.saturating_sub(self.pieces)
    }

    /// Whether a text is asked soonest by where its letters stand: a long piece without gaps is found from character to character in the
    /// time of the text. It takes constant time.
    pub fn is_sooner_by_places(&self) -> bool {
        self.has_gaps || self.longest <= SHORT
    }

    /// Whether one of some texts of so many bytes, which has so many characters, is asked soonest letter by letter: where its pieces are short,
    /// and many beside the characters. It takes constant time.
    pub fn is_sooner_by_letters(&self, count: usize, bytes: usize) -> bool {
        let near = if self.kinds.saturating_mul(bytes / 8) > NEAR_BYTES {
            FAR
        } else {
            NEAR
        };
        let compared = self.longest.saturating_sub(1).max(1);
        count.saturating_mul(compared) <= self.pieces.saturating_mul(near)
    }
}
