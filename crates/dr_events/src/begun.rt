ghost use Rattle.json.specs.Reads.{token_of};
ghost use Rattle.dr_events.specs.Passed.{Begins};

use crate::numerals::number_in;
use crate::scalar::Scalar;
use json::Token;

/// What the first token of a value tells: all that columns see of it, that a list or an object begins, or that there is no
/// value.
pub enum Begun<'a> {
    Whole(Scalar<'a>),
    List,
    Object,
    Wrong,
}

/// What that token tells, where it is the first one of a value.
#[inline(always)]
pub fn told_by(token: Token<'_>) -> Begun<'_>
    ensures { Begins (token_of token.entry) result }
{
    match token {
        Token::Null => Begun::Whole(Scalar::Null),
        Token::Bool(truth) => Begun::Whole(Scalar::Bool(truth)),
        Token::String(text) => Begun::Whole(Scalar::Text(text)),
        Token::Number(text) => match number_in(text) {
            Some(number) => Begun::Whole(number),
            None => Begun::Wrong,
        },
        Token::BeginArray => Begun::List,
        Token::BeginObject => Begun::Object,
        Token::EndObject | Token::EndArray | Token::Key(_) | Token::Bad => Begun::Wrong,
    }
}
