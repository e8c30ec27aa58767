ghost use Rattle.std.specs.Prelude.{◌≡◌, ◌∷◌, ℕ, List, Some, None, Ok, Err, OnOk, IsTrue, slice_set};
ghost use Rattle.json.specs.Token.{begin_object};
ghost use Rattle.serde_json.specs.Data.{Data, Members, no_members, object, put};
ghost use Rattle.dr_events.specs.declared.unparseable.Unparseable.TheVariants.{NotAnObject};
ghost use Rattle.dr_events.specs.Refusal.{RefusesAs};
ghost use Rattle.dr_events.specs.EventOf.{object_of};
ghost use Rattle.dr_events.specs.Passed.{begins_object, members_at, object_in_text};
ghost use Rattle.dr_events.specs.Scalars.{AreFirst, AreSeen, data_of, plain};

use crate::names::Names;
use crate::scalar::Scalar;
use crate::unparseable::Unparseable;
use crate::values::read_value;
use json::{Reader, Scratch, Token};
use simdutf8::compat::from_utf8;
use std::alloc::AllocError;

/// So many names are kept at most, where columns read fewer.
const MOST_NAMES: usize = 1024;

/// For so many members of a line it is noted at which place their names stand.
const MOST_NOTED: usize = 1024;

/// Notes what columns tell of the members of the object that a line spells: at the place of each name what they see in the
/// field of that name. All of it is null before. The texts are borrowed from the line, or from the scratch where they have
/// escapes. In `order` stand the places of the members of the line before, in their order, and afterwards those of this line.
/// Refusals: 30 `NotAnObject`.
pub fn read_object<'a>(
    bytes: &'a [u8],
    scratch: &'a mut Scratch,
    names: &mut Names,
    order: &mut Vec<usize>,
    found: &mut [Scalar<'a>],
) -> Result<(), Unparseable>
    ensures ok { OnOk result ((ms : Members) × (object_of bytes.now ≡ Ok (object ms)) × ((firsts : List (List ℕ)) → AreFirst firsts names.old → AreSeen firsts found.old no_members → AreSeen firsts found.new ms)) }
    ensures err { RefusesAs NotAnObject result (object_of bytes.now ≡ Err NotAnObject) }
    ensures kept { AreFirst names.old names.new }
{
    match from_utf8(bytes) {
        Ok(text) => read_text(text, scratch, names, order, found),
        Err(_) => Err(Unparseable::NotAnObject),
    }
}

fn read_text<'a>(
    text: &'a str,
    scratch: &'a mut Scratch,
    names: &mut Names,
    order: &mut Vec<usize>,
    found: &mut [Scalar<'a>],
) -> Result<(), Unparseable>
    ensures ok { OnOk result ((ms : Members) × (object_in_text text.now ≡ Ok (object ms)) × ((firsts : List (List ℕ)) → AreFirst firsts names.old → AreSeen firsts found.old no_members → AreSeen firsts found.new ms)) }
    ensures err { RefusesAs NotAnObject result (object_in_text text.now ≡ Err NotAnObject) }
    ensures kept { AreFirst names.old names.new }
{
    let mut reader = Reader::new(text, scratch)?;
    if !takes_object(&mut reader) {
        return Err(Unparseable::NotAnObject);
    }
    read_members(&mut reader, names, order, found)?;
    match reader.next() {
        None => Ok(()),
        Some(_) => Err(Unparseable::NotAnObject),
    }
}

// Takes the next token, and tells whether it opens an object.
fn takes_object(reader: &mut Reader<'_>) -> bool
    ensures is { result ≡ begins_object reader.old }
    ensures rest { IsTrue result → reader.old ≡ begin_object ∷ reader.new }
{
    matches!(reader.next(), Some(Token::BeginObject))
}

// Reads the members of an object that has begun.
fn read_members<'a>(
    reader: &mut Reader<'a>,
    names: &mut Names,
    order: &mut Vec<usize>,
    found: &mut [Scalar<'a>],
) -> Result<(), Unparseable>
    ensures ok { OnOk result ((ms : Members) × (members_at reader.old ≡ Some (ms, reader.new)) × ((firsts : List (List ℕ)) → AreFirst firsts names.old → AreSeen firsts found.old no_members → AreSeen firsts found.new ms)) }
    ensures err { RefusesAs NotAnObject result (members_at reader.old ≡ None) }
    ensures kept { AreFirst names.old names.new }
{
    let mut member: usize = 0;
    'members: loop {
        let Ok(next) = reader.next_key() else {
            return Err(Unparseable::NotAnObject);
        };
        let Some(key) = next else {
            return Ok(());
        };
        let Ok(value) = read_value(reader) else {
            return Err(Unparseable::NotAnObject);
        };
        keep(names, order, member, key, value, found)?;
        member = member.wrapping_add(1);
    }
}

// Keeps the value of a member, which has that place in the line, where a column reads it, and its name.
fn keep<'a>(
    names: &mut Names,
    order: &mut Vec<usize>,
    member: usize,
    key: &str,
    value: Scalar<'a>,
    found: &mut [Scalar<'a>],
) -> Result<(), AllocError>
    ensures seen { (firsts : List (List ℕ)) (d : Data) (ms : Members) → AreFirst firsts names.old → plain d ≡ data_of value.entry → AreSeen firsts found.old ms → OnOk result (AreSeen firsts found.new (put key.now d ms)) }
    ensures kept { AreFirst names.old names.new }
{
    let likely = place_noted(order.as_slice(), member);
    let place = names.place_kept(likely, key, MOST_NAMES)?;
    let _ = names.len();
    note(order, member, likely, place)?;
    match place {
        Some(place) => put(found, place, value),
        None => {}
    }
    Ok(())
}

fn put<'a>(found: &mut [Scalar<'a>], place: usize, value: Scalar<'a>)
    ensures { found.new ≡ slice_set found.old place value.entry }
{
    if place >= found.len() {
        return;
    }
    found[place] = value;
}

fn place_noted(order: &[usize], member: usize) -> usize {
    match order.get(member) {
        Some(place) => *place,
        None => usize::MAX,
    }
}

// Notes the place of a member where it isn't the noted one. A name that isn't kept has the greatest number for one.
fn note(
    order: &mut Vec<usize>,
    member: usize,
    noted: usize,
    place: Option<usize>,
) -> Result<(), AllocError> {
    let place = match place {
        Some(place) => place,
        None => usize::MAX,
    };
    if place == noted {
        return Ok(());
    }
    if let Some(it) = order.get_mut(member) {
        *it = place;
    } else if order.len() < MOST_NOTED {
        order.push(place)?;
    }
    Ok(())
}
