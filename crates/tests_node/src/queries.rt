ghost use Rattle.std.specs.Prelude.{◌≡◌, IfSome};
ghost use Rattle.std.specs.Box.{box_value};
ghost use Rattle.dr_ask.specs.Asked.{asked};
ghost use Rattle.dr_ask.specs.MadeFor.{MadeFor};

use dr_ask::Query;
use dr_schema::Schema;
use std::alloc::Global;

/// The query of a text, in a block of its own.
pub fn query_of(alloc: Global, schema: &Schema, text: &str) -> Option<Box<Query>>
    ensures { IfSome result (λ query. MadeFor schema.now (asked (box_value query))) }
{
    let Ok(query) = Query::parse(alloc, text.as_bytes(), schema) else {
        return None;
    };
    boxed(alloc, query)
}

fn boxed(alloc: Global, query: Query) -> Option<Box<Query>>
    ensures { IfSome result (λ boxed. box_value boxed ≡ query) }
{
    match Box::new(alloc, query) {
        Ok(boxed) => Some(boxed),
        Err(_) => None,
    }
}
