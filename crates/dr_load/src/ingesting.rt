ghost use Rattle.std.specs.Prelude.{◌≡◌, OnOk};
ghost use Rattle.dr_load.specs.OfSeat.{AreOfSeat};

use crate::failure::Failure;
use crate::ingested::Ingested;
use crate::tally::Tally;
use dr_base::Event;
use dr_books::Books;
use dr_events::{EventReader, Unparseable};
use dr_lines::{Counted, LineReader, NextLine};
use dr_node::{Node, Seat};
use dr_spec::IngestSpec;
use std::alloc::Global;
use std::io::Read;
use std::sync::Wait;

/// How many events are accepted one after another.
const TOGETHER: usize = 64;

/// Accepts the event of each line of a file through a seat, until the file or the node refuses one. An event is read outside
/// of the lock.
pub(crate) fn ingest<B: Books, R: Read + Drop, T: Wait>(
    rt: &T,
    alloc: Global,
    node: &Node<B>,
    spec: &IngestSpec,
    seat: &mut Seat<B>,
    file: R,
) -> Ingested
    requires { spec.now ≡ B.schema }
{
    let mut tally = Tally {
        unparseable: 0,
        thrown_away: 0,
    };
    let mut file = Counted::new(file);
    let ended = ingest_file(rt, alloc, node, spec, seat, &mut file, &mut tally);
    Ingested {
        tally,
        refusal: ended.err(),
    }
}

// The same, with the lines counted that became no event of the node.
fn ingest_file<B: Books, R: Read, T: Wait>(
    rt: &T,
    alloc: Global,
    node: &Node<B>,
    spec: &IngestSpec,
    seat: &mut Seat<B>,
    file: &mut Counted<R>,
    tally: &mut Tally,
) -> Result<(), Failure>
    requires { spec.now ≡ B.schema }
{
    let mut lines = LineReader::new(alloc)?;
    let mut events = EventReader::new(alloc, spec)?;
    ingest_lines(rt, alloc, node, seat, file, &mut lines, &mut events, tally)
}

// Accepts the event of each line that is left. Those of the lines that were read ahead are accepted one after another, each in a
// step of its own, since the rows that an event reaches lie near for the thread that has just had the lock.
fn ingest_lines<B: Books, R: Read, T: Wait>(
    rt: &T,
    alloc: Global,
    node: &Node<B>,
    seat: &mut Seat<B>,
    file: &mut Counted<R>,
    lines: &mut LineReader,
    events: &mut EventReader,
    tally: &mut Tally,
) -> Result<(), Failure>
    requires { events.old ≡ B.schema }
{
    let mut read = Vec::with_capacity(alloc, TOGETHER)?;
    'lines: loop {
        match lines.next_line(file) {
            NextLine::Line => read_line(
                alloc,
                node,
                seat.number(),
                events,
                lines.line(),
                tally,
                &mut read,
            )?,
            NextLine::TooLong => tally.unparseable = tally.unparseable.saturating_add(1),
            NextLine::End => return accept_all(rt, node, seat, read),
            NextLine::Failed => return Err(Failure::ReadFault),
        }
        if are_due(read.as_slice(), lines) {
            accept_all(rt, node, seat, read)?;
            read = Vec::with_capacity(alloc, TOGETHER)?;
        }
    }
}

// Whether no more events are read before these are accepted: there are as many as are accepted together, or the next line may have
// to be waited for.
fn are_due(read: &[Event], lines: &LineReader) -> bool {
    read.len() >= TOGETHER || !lines.has_line()
}

// Reads the event of a line, or counts the line.
fn read_line<B: Books>(
    alloc: Global,
    node: &Node<B>,
    seat: u8,
    events: &mut EventReader,
    line: &[u8],
    tally: &mut Tally,
    read: &mut Vec<Event>,
) -> Result<(), Failure>
    requires schema { events.old ≡ B.schema }
    requires read { AreOfSeat B.schema seat read.old.items }
    ensures schema { events.new ≡ events.old }
    ensures read { OnOk result (AreOfSeat B.schema seat read.new.items) }
{
    let event = match events.read(alloc, seat, line) {
        Ok(event) => event,
        Err(Unparseable::NoMemory) => return Err(Failure::NoMemory),
        Err(_) => {
            tally.unparseable = tally.unparseable.saturating_add(1);
            return Ok(());
        }
    };
    if !node.keeps(&event) {
        tally.thrown_away = tally.thrown_away.saturating_add(1);
        return Ok(());
    }
    read.push(event)?;
    Ok(())
}

// Accepts events that were read through the seat whose mark they have, in their order.
fn accept_all<B: Books, T: Wait>(
    rt: &T,
    node: &Node<B>,
    seat: &mut Seat<B>,
    read: Vec<Event>,
) -> Result<(), Failure>
    requires { AreOfSeat B.schema seat.old.number read.items }
    ensures { OnOk result (seat.new.number ≡ seat.old.number) }
{
    for event in read {
        if let Err(error) = node.accept(rt, seat, event) {
            return Err(Failure::of_node(error));
        }
    }
    Ok(())
}
