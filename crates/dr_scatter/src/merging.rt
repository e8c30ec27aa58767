ghost use Rattle.std.specs.Prelude.{◌<◌, IfOk, length};
ghost use Rattle.std.specs.Thread.{IsSync};
ghost use Rattle.dr_scatter.specs.Folds.{AreFolds, IsFoldOfAll};

use crate::halves::halves;
use dr_ask::Query;
use dr_partial::Partial;
use std::alloc::{AllocError, Global};
use std::thread::{Threads, join};

/// Partial results of one query over some rows each, merged to that over all of these rows: as a tree whose two halves are
/// merged at once. The only error is that memory ran out.
pub fn merged<R: Threads + Sync>(
    rt: &R,
    alloc: Global,
    query: &Query,
    parts: Vec<Partial>,
) -> Result<Partial, AllocError>
    requires { AreFolds query.now parts.items }
    ensures { IfOk result (IsFoldOfAll query.now parts.items) }
{
    if parts.len() < 2 {
        return only(alloc, query, parts);
    }
    let (left, right) = halves(parts)?;
    let (first, second) = join(
        rt,
        || -> Result<Partial, AllocError>
            requires { IsSync R.row × AreFolds query.now left.items }
            ensures { IfOk result (IsFoldOfAll query.entry.now left.items) }
        { merged(rt, alloc, query, left) },
        || -> Result<Partial, AllocError>
            requires { IsSync R.row × AreFolds query.now right.items }
            ensures { IfOk result (IsFoldOfAll query.entry.now right.items) }
        { merged(rt, alloc, query, right) },
    );
    first?.merge(query, second?)
}

// The one partial result, or that over no rows where there is none.
fn only(alloc: Global, query: &Query, parts: Vec<Partial>) -> Result<Partial, AllocError>
    requires { length parts.items < 2 }
    ensures { IfOk result (IsFoldOfAll query.now parts.items) }
{
    let mut parts = parts;
    match parts.pop() {
        Some(groups) => Ok(groups),
        None => Partial::of_rows(alloc, query, &[]),
    }
}
