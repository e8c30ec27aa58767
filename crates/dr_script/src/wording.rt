ghost use Rattle.std.specs.Prelude.{◌≡◌, ◌++◌, IfOk, OnOk, option_map, string_bytes};
ghost use Rattle.dr_base.specs.FaultLine.{arg_part};
ghost use Rattle.dr_base.specs.declared.fault.Arg.TheVariants.{Index};
ghost use Rattle.dr_events.specs.Refusal.{arg_of};
ghost use Rattle.dr_script.specs.Commands.{stats_line, unparseable, unparseable_line};

use dr_counts::counts_line;
use dr_events::Unparseable;
use dr_timeline::Stats;
use std::alloc::{AllocError, Global};

/// The line that tells why a text is no event: `unparseable NUMBER NAME`, and the column's place where there is one.
pub fn unparseable_line(alloc: Global, error: &Unparseable) -> Result<Vec<u8>, AllocError>
    ensures { IfOk result (λ line. line.items ≡ (unparseable error.now).line) }
{
    let mut line = format!(in alloc; "unparseable {} {}", error.number(), error.name())?;
    push_place(alloc, &mut line, place_of(error))?;
    Ok(line.into_bytes())
}

// The place of the column whose field is bad.
fn place_of(error: &Unparseable) -> Option<usize>
    ensures { arg_of error.now ≡ option_map Index result }
{
    match error {
        Unparseable::BadDimension(place) | Unparseable::BadMetric(place) => Some(*place),
        _ => None,
    }
}

fn push_place(alloc: Global, line: &mut String, place: Option<usize>) -> Result<(), AllocError>
    ensures { OnOk result (string_bytes line.new ≡ string_bytes line.old ++ arg_part (option_map Index place)) }
{
    match place {
        Some(place) => {
            line.push_str(" ")?;
            line.push_str(place.to_string(alloc)?.as_str())
        }
        None => Ok(()),
    }
}

/// The line that tells what became of the inputs: `processed P unparseable U thrownAway T`.
pub fn stats_line(alloc: Global, stats: Stats) -> Result<Vec<u8>, AllocError>
    ensures { IfOk result (λ line. line.items ≡ stats_line stats) }
{
    counts_line(alloc, stats.processed, stats.unparseable, stats.thrown_away)
}
