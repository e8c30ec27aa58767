ghost use Rattle.std.specs.Prelude.{◌≡◌, length, IfOk};
ghost use Rattle.std.specs.List.{AllByRecursion};
ghost use Rattle.dr_events.specs.Refusal.{Gives};
ghost use Rattle.dr_events.specs.EventOf.{event_of};
ghost use Rattle.dr_events.specs.declared.scalar.Scalar.TheVariants.{Null};
ghost use Rattle.dr_schema.specs.Fits.{FitsSchema};

use crate::learning::learn;
use crate::line_object::read_object;
use crate::names::Names;
use crate::places::Places;
use crate::reading::event_of_fields;
use crate::scalar::Scalar;
use crate::unparseable::Unparseable;
use dr_base::Event;
use dr_schema::Schema;
use dr_spec::IngestSpec;
use json::Scratch;
use std::alloc::{AllocError, Global};
use std::marker::Model;

/// Reads the events of one spec, and keeps from one line to the next the memory that reading JSON needs, the names of the
/// members, and their order in the last line. A contract sees the schema of the spec.
#[derive(Drop)]
pub struct EventReader {
    schema: Schema,
    scratch: Scratch,
    names: Names,
    // So many of the names are read by columns, the first ones.
    columns: usize,
    places: Places,
    order: Vec<usize>,
}

impl Model for EventReader {
    ghost use Rattle.std.specs.Prelude.{◌≤◌, length, take};
    ghost use Rattle.dr_schema.specs.declared.schema.Schema.{Schema};
    ghost use Rattle.dr_events.specs.Scalars.{AreFields};

    ghost Value = { Schema };

    ghost view = { λ r. r.schema };

    ghost invariant = { λ r. AreFields r.schema (take r.columns r.names) r.places × (r.columns ≤ length r.names) };
}

impl EventReader {
    /// A reader of the events of a spec, whose schema it shares. The only error is that memory ran out, or that there are
    /// more shares than can be counted. It takes time and memory by the columns.
    pub fn new(alloc: Global, spec: &IngestSpec) -> Result<EventReader, AllocError>
        ensures { IfOk result (λ reader. reader ≡ spec.now) }
    {
        let schema = spec.schema().copy()?;
        let mut names = Names::new(alloc);
        let mut places = Places {
            time: 0,
            dimensions: Vec::new(alloc),
            inputs: Vec::new(alloc),
        };
        learn(&mut names, &mut places, &schema)?;
        let columns = names.len();
        Ok(EventReader {
            schema,
            scratch: Scratch::new(alloc),
            names,
            columns,
            places,
            order: Vec::new(alloc),
        })
    }

    /// The event that a line spells, as [`read_event`](crate::read_event) answers it.
    ///
    /// The line is read in one pass over its tokens, and no tree of values is built of it. It takes time by its bytes and by
    /// the columns of the spec: the name of a member is compared with one name where the members of the line before stood in
    /// the same order, and else found by hashing.
    pub fn read(&mut self, alloc: Global, seat: u8, bytes: &[u8]) -> Result<Event, Unparseable>
        ensures event { Gives (λ e. e) result (event_of self.old seat bytes.now) }
        ensures fits { IfOk result (FitsSchema self.old) }
        ensures mark { IfOk result (λ e. e.seat ≡ seat) }
        ensures kept { self.new ≡ self.old }
    {
        let mut found = blank(alloc, self.columns)?;
        read_object(
            bytes,
            &mut self.scratch,
            &mut self.names,
            &mut self.order,
            found.as_mut_slice(),
        )?;
        event_of_fields(
            alloc,
            self.schema.time_format(),
            seat,
            &self.places,
            found.as_slice(),
        )
    }
}

// What so many fields hold in an object without members.
fn blank<'a>(alloc: Global, columns: usize) -> Result<Vec<Scalar<'a>>, AllocError>
    ensures { IfOk result (λ found. AllByRecursion (λ s. s ≡ Null) found.items × (length found.items ≡ columns)) }
{
    let mut found = Vec::with_capacity(alloc, columns)?;
    'nulls: while found.len() < columns {
        found.push(Scalar::Null)?;
    }
    Ok(found)
}
