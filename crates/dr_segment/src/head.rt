ghost use Rattle.std.specs.Prelude.{◌≡◌, ◌++◌, OnOk};
ghost use Rattle.dr_segment.specs.Heads.{two_bytes, wide_bytes, mark_of, head_bytes};

use crate::writing::{put_count, put_long, put_word};
use std::alloc::AllocError;

// What the numbers in front of an image are made of.
#[derive(Drop)]
pub(crate) struct Head {
    pub(crate) rollup: bool,
    // How many bytes the image has.
    pub(crate) size: u64,
    pub(crate) chunk: i64,
    pub(crate) from: u64,
    pub(crate) to: u64,
    pub(crate) dims: usize,
    pub(crate) metrics: usize,
    pub(crate) rows: usize,
}

// Puts the 48 bytes in front behind.
pub(crate) fn put_head(out: &mut Vec<u8>, head: &Head) -> Result<(), AllocError>
    ensures { OnOk result (out.new.items ≡ out.old.items ++ head_bytes head.now) }
{
    put_word(out, 0x4753_5244)?;
    put_half(out, 1)?;
    put_half(out, mark(head.rollup))?;
    put_wide(out, head.size)?;
    put_long(out, head.chunk)?;
    put_wide(out, head.from)?;
    put_wide(out, head.to)?;
    put_half(out, head.dims)?;
    put_half(out, head.metrics)?;
    put_count(out, head.rows)?;
    Ok(())
}

fn mark(rollup: bool) -> usize
    ensures { result ≡ mark_of rollup }
{
    if rollup { 1 } else { 0 }
}

#[tactic(auto, unfolding(crate::specs::Heads::two_bytes))]
fn put_short(out: &mut Vec<u8>, n: u16) -> Result<(), AllocError>
    ensures { OnOk result (out.new.items ≡ out.old.items ++ two_bytes n) }
{
    out.extend_from_slice(&n.to_le_bytes())?;
    Ok(())
}

// Puts the low two bytes of a number behind.
fn put_half(out: &mut Vec<u8>, n: usize) -> Result<(), AllocError>
    ensures { OnOk result (out.new.items ≡ out.old.items ++ two_bytes n) }
{
    put_short(out, (n % 65536) as u16)?;
    Ok(())
}

#[tactic(auto, unfolding(crate::specs::Heads::wide_bytes))]
fn put_wide(out: &mut Vec<u8>, n: u64) -> Result<(), AllocError>
    ensures { OnOk result (out.new.items ≡ out.old.items ++ wide_bytes n) }
{
    out.extend_from_slice(&n.to_le_bytes())?;
    Ok(())
}
