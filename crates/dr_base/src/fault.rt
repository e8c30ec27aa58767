ghost use Rattle.std.specs.Prelude.{◌≡◌, IfOk, string_bytes};
ghost use Rattle.dr_base.specs.FaultLine.{fault_line, arg_text};

use crate::text::Text;
use serde_json::Value;
use std::alloc::{AllocError, Global};

/// What a refusal carries: the name that was refused, or the place of a column in its list, from 0.
#[derive(Debug, Drop)]
pub enum Arg {
    Name(Text),
    Index(usize),
}

/// The line of a refusal: `refused NUMBER NAME`, and where there is an argument a space and the name as JSON text
/// (RFC 8259, as compact JSON is written) or the index in decimal. It has no newline at its end. The only error is that
/// memory ran out. It takes time by the bytes of the line.
pub fn fault_line(
    alloc: Global,
    number: u16,
    name: &str,
    arg: Option<Arg>,
) -> Result<Vec<u8>, AllocError>
    ensures { IfOk result (λ line. line.items ≡ fault_line number name.now arg) }
{
    let mut line = format!(in alloc; "refused {number} {name}")?;
    if let Some(arg) = arg {
        line.push_str(" ")?;
        line.push_str(arg_text(alloc, arg)?.as_str())?;
    }
    Ok(line.into_bytes())
}

fn arg_text(alloc: Global, arg: Arg) -> Result<String, AllocError>
    ensures { IfOk result (λ text. string_bytes text ≡ arg_text arg) }
{
    match arg {
        Arg::Name(name) => Value::String(String::from_str(alloc, name.as_str())?).to_string(alloc),
        Arg::Index(index) => index.to_string(alloc),
    }
}
