ghost use Rattle.std.specs.Prelude.{◌≡◌, IfOk};
ghost use Rattle.std.specs.Box.{box_value};
ghost use Rattle.dr_ask.specs.Asked.{asked};
ghost use Rattle.dr_ask.specs.MadeFor.{MadeFor};

use dr_ask::Query;
use dr_schema::Schema;
use std::alloc::Global;
use std::test::Fail;

/// The query of a text, in a block of its own.
pub fn query_of(alloc: Global, schema: &Schema, text: &str) -> Result<Box<Query>, Fail>
    ensures { IfOk result (λ query. MadeFor schema.now (asked (box_value query))) }
{
    let query = Query::parse(alloc, text.as_bytes(), schema)?;
    boxed(alloc, query)
}

fn boxed(alloc: Global, query: Query) -> Result<Box<Query>, Fail>
    ensures { IfOk result (λ boxed. box_value boxed ≡ query) }
{
    Ok(Box::new(alloc, query)?)
}
