//! What became of the inputs of a run, as a line of text: how many were accepted as events, how many were no events, and how many
//! were not kept. Scripts and loads end with the same line.
#![tactic(auto)]

ghost use Rattle.std.specs.Prelude.{◌≡◌, ◌++◌, decimal, IfOk, OnOk, string_bytes};
ghost use Rattle.dr_counts.specs.CountsLine.{counts_line};

use std::alloc::{AllocError, Global};

/// The line that tells what became of the inputs: `processed P unparseable U thrownAway T`, without a newline (Apache Druid
/// documentation, ingestion: row statistics). Each number is a count, in decimal digits. The only error is that memory ran out.
/// It takes time and memory by the digits.
pub fn counts_line(
    alloc: Global,
    processed: u64,
    unparseable: u64,
    thrown_away: u64,
) -> Result<Vec<u8>, AllocError>
    ensures { IfOk result (λ line. line.items ≡ counts_line processed unparseable thrown_away) }
{
    Ok(counts(alloc, processed, unparseable, thrown_away)?.into_bytes())
}

fn counts(
    alloc: Global,
    processed: u64,
    unparseable: u64,
    thrown_away: u64,
) -> Result<String, AllocError>
    ensures { IfOk result (λ line. string_bytes line ≡ counts_line processed unparseable thrown_away) }
{
    let mut line = String::new(alloc);
    push_count(alloc, &mut line, "processed ", processed)?;
    push_count(alloc, &mut line, " unparseable ", unparseable)?;
    push_count(alloc, &mut line, " thrownAway ", thrown_away)?;
    Ok(line)
}

fn push_count(alloc: Global, line: &mut String, word: &str, number: u64) -> Result<(), AllocError>
    ensures { OnOk result (string_bytes line.new ≡ string_bytes line.old ++ (word.now ++ decimal number)) }
{
    line.push_str(word)?;
    line.push_str(number.to_string(alloc)?.as_str())
}
