ghost use Rattle.dr_requests.specs.Request.{at_in, commit_in, image_in, join_in, places_in, plan_in, purpose_in, request_alone, request_in, request_with, seal_in};
ghost use Rattle.dr_requests.specs.Seen.{seen_request};
ghost use Rattle.dr_requests.specs.Refusal.{Gives};

use crate::command_error::CommandError;
use crate::request::Request;
use crate::words::{number_in, one_word, split_word, two_parts};
use dr_merge::Purpose;

/// A line of a script as what it asks for, in bytes of the line. Refusals: 101 `BadCommand` where it fits no command. It takes no
/// memory, and time by the bytes of its words.
pub fn request_in(line: &[u8]) -> Result<Request<&[u8]>, CommandError>
    ensures { Gives seen_request result (request_in line.now) }
{
    match split_word(line) {
        (word, None) => request_alone(word),
        (word, Some(rest)) => request_with(word, rest),
    }
}

// A line of one word.
fn request_alone(word: &[u8]) -> Result<Request<&[u8]>, CommandError>
    ensures { Gives seen_request result (request_alone word.now) }
{
    if word == b"+".as_slice() {
        return Ok(Request::Add(b""));
    }
    if word == b"pin".as_slice() {
        return Ok(Request::Pin);
    }
    if word == b"stats".as_slice() {
        return Ok(Request::Stats);
    }
    Err(CommandError::BadCommand)
}

// A line of a word and what is behind it.
fn request_with<'a>(word: &[u8], rest: &'a [u8]) -> Result<Request<&'a [u8]>, CommandError>
    ensures { Gives seen_request result (request_with word.now rest.now) }
{
    if word == b"+".as_slice() {
        return Ok(Request::Add(rest));
    }
    if word == b"query".as_slice() {
        return Ok(Request::Query(rest));
    }
    if word == b"audit".as_slice() {
        return Ok(Request::Audit(rest));
    }
    if word == b"at".as_slice() {
        return at_in(rest);
    }
    if word == b"seal".as_slice() {
        return seal_in(rest);
    }
    if word == b"merge".as_slice() {
        return join_in(Purpose::Merge, rest);
    }
    if word == b"publish".as_slice() {
        return join_in(Purpose::Publish, rest);
    }
    if word == b"plan".as_slice() {
        return plan_in(rest);
    }
    if word == b"commit".as_slice() {
        return commit_in(rest);
    }
    if word == b"image".as_slice() {
        return image_in(rest);
    }
    Err(CommandError::BadCommand)
}

// `INSTANT`.
fn seal_in(text: &[u8]) -> Result<Request<&[u8]>, CommandError>
    ensures { Gives seen_request result (seal_in text.now) }
{
    Ok(Request::Seal(one_word(text)?))
}

// `N`.
fn commit_in<'a>(text: &[u8]) -> Result<Request<&'a [u8]>, CommandError>
    ensures { Gives seen_request result (commit_in text.now) }
{
    Ok(Request::Commit(number_in(text)?))
}

// `N JSON`.
fn at_in(text: &[u8]) -> Result<Request<&[u8]>, CommandError>
    ensures { Gives seen_request result (at_in text.now) }
{
    let (number, query) = two_parts(text)?;
    Ok(Request::At(number_in(number)?, query))
}

// `INSTANT LO HI`, to be joined at once.
fn join_in(purpose: Purpose, text: &[u8]) -> Result<Request<&[u8]>, CommandError>
    ensures { Gives seen_request result (join_in purpose text.now) }
{
    let (instant, lo, hi) = places_in(text)?;
    Ok(Request::Join(purpose, instant, lo, hi))
}

// `PURPOSE INSTANT LO HI`, to be joined later.
fn plan_in(text: &[u8]) -> Result<Request<&[u8]>, CommandError>
    ensures { Gives seen_request result (plan_in text.now) }
{
    let (word, range) = two_parts(text)?;
    let purpose = purpose_in(word)?;
    let (instant, lo, hi) = places_in(range)?;
    Ok(Request::Plan(purpose, instant, lo, hi))
}

// `INSTANT PLACE`.
fn image_in(text: &[u8]) -> Result<Request<&[u8]>, CommandError>
    ensures { Gives seen_request result (image_in text.now) }
{
    let (instant, place) = two_parts(text)?;
    Ok(Request::Image(instant, number_in(place)?))
}

fn purpose_in(word: &[u8]) -> Result<Purpose, CommandError>
    ensures { Gives (λ purpose. purpose) result (purpose_in word.now) }
{
    if word == b"merge".as_slice() {
        return Ok(Purpose::Merge);
    }
    if word == b"publish".as_slice() {
        return Ok(Purpose::Publish);
    }
    Err(CommandError::BadCommand)
}

fn places_in(text: &[u8]) -> Result<(&[u8], u64, u64), CommandError>
    ensures { Gives (λ places. (places.0.now, places.1, places.2)) result (places_in text.now) }
{
    let (instant, places) = two_parts(text)?;
    let (lo, hi) = two_parts(places)?;
    Ok((instant, number_in(lo)?, number_in(hi)?))
}
