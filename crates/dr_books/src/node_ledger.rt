use std::marker::Brand;
use std::sync::ledger::Ledger;

/// The ledger of the events that a seat accepted. It also names the schema of the node that the seat is of, since nothing is
/// known of a value under a lock but what its type says. A caller picks both where it passes `Brand`.
pub trait NodeLedger: Ledger {
    ghost use Rattle.dr_schema.specs.declared.schema_fields.SchemaFields.{SchemaFields};

    /// The schema of the node.
    ghost schema: { SchemaFields };
}

impl NodeLedger for Brand {
    ghost use Rattle.dr_books.specs.Unnamed.{no_schema};

    ghost schema = { no_schema };
}
