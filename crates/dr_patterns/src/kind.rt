ghost use Rattle.std.specs.Prelude.{◌≡◌, ◌∷◌, true};
ghost use Rattle.std.specs.Str.{chars};
ghost use Rattle.dr_like.specs.Letters.{Lacks};
ghost use Rattle.dr_patterns.specs.Literals.{IsLiteral, IsOfKind};

// The bytes of the longest text that is looked for, together with others, at each place of a text. A longer one is looked for by
// itself, so that no text costs more at a place than this many bytes.
const LONGEST: usize = 1000;

// What a pattern asks of a text.
#[derive(Clone, Copy)]
pub enum Kind<'p> {
    // To be this one.
    Whole(&'p str),
    // To begin with this one.
    Start(&'p str),
    // To end with this one.
    End(&'p str),
    // To have this one, of at most `LONGEST` bytes, at some place.
    Part(&'p str),
    // Something else.
    Other,
}

// What a pattern asks of a text. It takes no memory, and time by the bytes of the pattern.
pub fn kind_of(pattern: &str) -> Kind<'_>
    ensures { IsOfKind pattern.now result }
{
    match pattern.strip_prefix('%') {
        Some(behind) => kind_behind_run(behind),
        None => kind_from_start(pattern),
    }
}

// What a pattern asks that is a run and these characters.
fn kind_behind_run(behind: &str) -> Kind<'_>
    ensures { IsOfKind (37 ∷ behind.now) result }
{
    let Some(part) = behind.strip_suffix('%') else {
        return if is_literal(behind) {
            Kind::End(behind)
        } else {
            Kind::Other
        };
    };
    if part.len() <= LONGEST && is_literal(part) {
        Kind::Part(part)
    } else {
        Kind::Other
    }
}

// What a pattern asks that begins with no run.
fn kind_from_start(pattern: &str) -> Kind<'_>
    ensures { IsOfKind pattern.now result }
{
    let Some(start) = pattern.strip_suffix('%') else {
        return if is_literal(pattern) {
            Kind::Whole(pattern)
        } else {
            Kind::Other
        };
    };
    if is_literal(start) {
        Kind::Start(start)
    } else {
        Kind::Other
    }
}

// Whether a text stands for itself in a pattern.
fn is_literal(text: &str) -> bool
    ensures { result ≡ true → IsLiteral text.now }
{
    lacks(text, '%') && lacks(text, '_')
}

// Whether a text lacks a character.
fn lacks(text: &str, letter: char) -> bool
    ensures { result ≡ true → Lacks letter (chars text.now) }
{
    match text.find(letter) {
        Some(_) => false,
        None => true,
    }
}
