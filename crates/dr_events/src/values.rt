ghost use Rattle.std.specs.Prelude.{◌≡◌, ◌<◌, length, Some, None, IfOk, OnOk, OnErr, MatchResult};
ghost use Rattle.json.specs.Json.{value, items, members};
ghost use Rattle.serde_json.specs.Data.{Data, no_members};
ghost use Rattle.serde_json.specs.Read.{of_json, of_items, of_members, converted};
ghost use Rattle.dr_events.specs.Scalars.{data_of, plain};
ghost use Rattle.dr_events.specs.Passed.{rest};

use crate::begun::{Begun, told_by};
use crate::scalar::Scalar;
use json::{Invalid, Reader};

/// How deep the values of an object nest at most, the object itself not counted.
const DEPTH: usize = 126;

/// What columns tell of the next value, which is checked as JSON whole, and taken from the reader. Lists and objects may nest
/// `DEPTH` deep; none of what they hold is kept, and nothing takes memory. It takes time by the bytes of the value.
#[inline(always)]
pub fn read_value<'a>(reader: &mut Reader<'a>) -> Result<Scalar<'a>, Invalid>
    ensures value { IfOk result (λ s. (d : Data) × (converted of_json (value 126 reader.old) ≡ Some (d, reader.new)) × (plain d ≡ data_of s)) }
    ensures err { OnErr result (converted of_json (value 126 reader.old) ≡ None) }
    ensures shorter { OnOk result (length reader.new < length reader.old) }
{
    let token = reader.next().ok_or(Invalid)?;
    match told_by(token) {
        Begun::Whole(scalar) => Ok(scalar),
        Begun::List => {
            pass_items(reader, DEPTH - 1)?;
            Ok(Scalar::Other)
        }
        Begun::Object => {
            pass_members(reader, DEPTH - 1)?;
            Ok(Scalar::Other)
        }
        Begun::Wrong => Err(Invalid),
    }
}

/// Passes over the next value, which is checked as JSON whole. Lists and objects may nest that deep. It takes no memory, and
/// time by the bytes of the value.
#[cycle(pass_value)]
fn pass_value(reader: &mut Reader<'_>, depth: usize) -> Result<(), Invalid>
    ensures value { OnOk result ((d : Data) × (converted of_json (value depth reader.old) ≡ Some (d, reader.new))) }
    ensures err { OnErr result (converted of_json (value depth reader.old) ≡ None) }
    ensures shorter { OnOk result (length reader.new < length reader.old) }
{
    let token = reader.next().ok_or(Invalid)?;
    match told_by(token) {
        Begun::Whole(_) => Ok(()),
        Begun::Wrong => Err(Invalid),
        Begun::List => {
            if depth == 0 {
                return Err(Invalid);
            }
            pass_items(reader, depth - 1)?;
            Ok(())
        }
        Begun::Object => {
            if depth == 0 {
                return Err(Invalid);
            }
            pass_members(reader, depth - 1)?;
            Ok(())
        }
    }
}

#[cycle(pass_value)]
#[inline(never)]
fn pass_items(reader: &mut Reader<'_>, depth: usize) -> Result<(), Invalid>
    ensures value { MatchResult result
        (λ _. rest (converted of_items (items (value depth) (length reader.old) reader.old)) ≡ Some reader.new)
        (λ _. rest (converted of_items (items (value depth) (length reader.old) reader.old)) ≡ None) }
    ensures shorter { OnOk result (length reader.new < length reader.old) }
{
    'items: while !reader.take_end_array() {
        pass_value(reader, depth)?;
    }
    Ok(())
}

#[cycle(pass_value)]
#[inline(never)]
fn pass_members(reader: &mut Reader<'_>, depth: usize) -> Result<(), Invalid>
    ensures value { MatchResult result
        (λ _. rest (converted (λ ms. of_members ms no_members) (members (value depth) (length reader.old) reader.old)) ≡ Some reader.new)
        (λ _. rest (converted (λ ms. of_members ms no_members) (members (value depth) (length reader.old) reader.old)) ≡ None) }
    ensures shorter { OnOk result (length reader.new < length reader.old) }
{
    'members: while let Some(_) = reader.next_key()? {
        pass_value(reader, depth)?;
    }
    Ok(())
}
