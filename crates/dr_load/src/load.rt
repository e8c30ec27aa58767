ghost use Rattle.std.specs.Prelude.{◌≡◌, ◌≤◌, true, IfOk, length};
ghost use Rattle.std.specs.Box.{box_value};
ghost use Rattle.dr_ask.specs.Asked.{asked};
ghost use Rattle.dr_ask.specs.MadeFor.{MadeFor};
ghost use Rattle.dr_ask.specs.Matching.{is_matching};
ghost use Rattle.dr_base.specs.Reading.{GivesUnless};
ghost use Rattle.dr_load.specs.Load.{asked_of, matching_of, RefusesFirst, Tells};
ghost use Rattle.dr_load.specs.Refusal.{is_memory};

use crate::eight::on_eight_seats;
use crate::load_error::LoadError;
use crate::order::Order;
use crate::watch::{NoWatch, Watch};
use dr_ask::Query;
use dr_spec::IngestSpec;
use std::alloc::Global;
use std::io::Read;
use std::sync::Wait;
use std::thread::Threads;
use std::time::Clock;

/// Loads files of events, one event a line, and answers a query over all of them: the line `processed P unparseable U thrownAway T`
/// and the line of the answer (Apache Druid documentation, ingestion: row statistics; timeseries and groupBy queries).
///
/// Each file is ingested by a thread of its own. A merger publishes all sealed ranges of the first chunk that has two or more,
/// and a query thread pins and answers, while files are ingested; a refusal that these two meet ends that thread alone. A line
/// over 1048576 bytes is unparseable, and a final newline starts no line.
///
/// Refusals, the first in this order: those of the spec (0 to 3, 20 to 27) and of the query (0 to 3, 11 to 13, 22, 60 to 62, 70 to
/// 77); 97 `NotMatching` where the query doesn't match, a scan among them; what ended the thread of the first file that wasn't read whole (0, 80 `WorkerNotStarted`, 90 `StreamFull`, 99
/// `ReadFault`); 94 `HistoryMismatch`; those of the answer (0, 80, 81). Where the spec and the query are taken and the query
/// matches, none of the first three comes. Where a text is answered, it is byte for byte that of the raw answer over the events
/// that the node kept. It waits for its threads, and takes time by the bytes of the files and memory by their events.
pub fn load_run<R: Read + Send + Drop, T: Threads + Wait + Clock + Sync + AllocGlobal>(
    rt: &T,
    spec: &[u8],
    query: &[u8],
    files: Vec<R>,
    workers: u8,
) -> Result<Vec<u8>, LoadError>
    requires { length files.items ≤ 6 }
    ensures first { RefusesFirst (asked_of spec.now query.now) result }
    ensures text { IfOk result (λ text. Tells (asked_of spec.now query.now) text.items) }
{
    load_watched(rt, spec, query, files, workers, &NoWatch)
}

/// As [`load_run`], and tells meanwhile how far it is.
pub fn load_watched<
    R: Read + Send + Drop,
    T: Threads + Wait + Clock + Sync + AllocGlobal,
    W: Watch + Sync,
>(
    rt: &T,
    spec: &[u8],
    query: &[u8],
    files: Vec<R>,
    workers: u8,
    watch: &W,
) -> Result<Vec<u8>, LoadError>
    requires { length files.items ≤ 6 }
    ensures first { RefusesFirst (asked_of spec.now query.now) result }
    ensures text { IfOk result (λ text. Tells (asked_of spec.now query.now) text.items) }
{
    let alloc = rt.alloc();
    let spec = IngestSpec::parse(alloc, spec)?;
    let query = matching(alloc, query, &spec)?;
    let order = Order {
        spec,
        query,
        files,
        workers,
    };
    Ok(on_eight_seats(rt, alloc, order, watch)?)
}

// The query of a text, which has to match.
fn matching(alloc: Global, text: &[u8], spec: &IngestSpec) -> Result<Box<Query>, LoadError>
    ensures value { GivesUnless is_memory (λ q. asked (box_value q)) result (matching_of spec.now text.now) }
    ensures made { IfOk result (λ q. MadeFor spec.now (asked (box_value q))) }
    ensures matching { IfOk result (λ q. is_matching (asked (box_value q)) ≡ true) }
{
    let query = Query::parse(alloc, text, spec.schema())?;
    if !query.is_matching() {
        return Err(LoadError::NotMatching);
    }
    Ok(Box::new(alloc, query)?)
}
