ghost use Rattle.std.specs.Prelude.{◌≡◌, ◌<◌, ◌&&◌, ℤ, length, IfOk};
ghost use Rattle.dr_time.specs.Union.{union_holds};
ghost use Rattle.dr_filter.specs.Times.{some_held, every_held, is_held};

use dr_time::Union;
use std::alloc::{AllocError, Global};

/// The times that one of some unions holds. The only error is that memory ran out. It takes memory by their intervals, and time by
/// these times the logarithm of their number.
pub fn some_time(alloc: Global, unions: &[Union]) -> Result<Union, AllocError>
    ensures { IfOk result (λ u. (t : ℤ) → union_holds u t ≡ some_held t unions.now) }
{
    let mut intervals = Vec::new(alloc);
    for union in unions {
        intervals.extend_from_slice(union.intervals())?;
    }
    Union::of(alloc, intervals.as_slice())
}

/// The times that all of some unions hold; none where there are no unions. The only error is that memory ran out. It takes memory
/// by their intervals, and time by these times the logarithm of the number of the unions: they are halved, so that each interval is
/// copied once for each halving.
pub fn every_time(unions: &[Union]) -> Result<Option<Union>, AllocError>
    ensures { IfOk result (λ u. (t : ℤ) → is_held t u ≡ every_held t unions.now) }
{
    if unions.len() < 2 {
        return first_of(unions);
    }
    let (front, behind) = unions.split_at(unions.len() / 2);
    let front = every_time(front)?;
    let behind = every_time(behind)?;
    both_of(front, behind)
}

// The times of the first union, where it is the only one.
fn first_of(unions: &[Union]) -> Result<Option<Union>, AllocError>
    requires { length unions.now < 2 }
    ensures { IfOk result (λ u. (t : ℤ) → is_held t u ≡ every_held t unions.now) }
{
    match unions.first() {
        Some(union) => Ok(Some(union.copy()?)),
        None => Ok(None),
    }
}

// The times that lie in both of two unions, where there are both.
fn both_of(some: Option<Union>, other: Option<Union>) -> Result<Option<Union>, AllocError>
    ensures { IfOk result (λ times. (t : ℤ) → is_held t times ≡ (is_held t some && is_held t other)) }
{
    match (some, other) {
        (Some(some), Some(other)) => Ok(Some(some.intersection(&other)?)),
        (None, other) => Ok(other),
        (some, None) => Ok(some),
    }
}
