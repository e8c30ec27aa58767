ghost use Rattle.std.specs.Prelude.{◌≡◌, ◌<◌, ◌≤◌, ◌+◌, length, slice_range, IfOk, IfSome};
ghost use Rattle.std.specs.List.{range_with_len};
ghost use Rattle.dr_rowindex.specs.Orders.{AreAll, AreBlocks, IsBlock, Put};

use crate::row_set::RowSet;
use std::alloc::{AllocError, Global};
use std::marker::Model;

// How many rows are told of together, where all of them are to be added.
const BLOCK: usize = 1024;

/// All rows in some order. Of each full block of them it is told at once which rows they are, so that those between two places are
/// added to a set in few steps. A contract sees the rows as they stand.
#[derive(Drop)]
pub struct RowOrder {
    rows: Vec<usize>,
    blocks: Vec<RowSet>,
}

impl Model for RowOrder {
    ghost use Rattle.std.specs.Prelude.{List, ℕ};
    ghost use Rattle.dr_rowindex.specs.Orders.{AreAll, AreBlocks};

    ghost Value = { List ℕ };

    ghost view = { λ o. o.rows.items };

    ghost invariant = { λ o. AreAll o.rows.items × AreBlocks o.rows.items o.blocks.items };
}

impl RowOrder {
    // These rows, in this order.
    pub(crate) fn of(alloc: Global, rows: Vec<usize>) -> Result<RowOrder, AllocError>
        requires { AreAll rows.items }
        ensures { IfOk result (λ o. o ≡ rows.items) }
    {
        let blocks = blocks_of(alloc, rows.as_slice())?;
        Ok(RowOrder { rows, blocks })
    }

    // The rows as they stand.
    pub(crate) fn rows(&self) -> &[usize]
        ensures value { result.now ≡ self.now }
        ensures all { AreAll self.now }
    {
        self.rows.as_slice()
    }

    // Adds the rows from a place on, up to another, to a set.
    pub(crate) fn insert_between(&self, from: usize, to: usize, set: &mut RowSet)
        requires within { to ≤ length self.now }
        requires rows { length set.old ≡ length self.now }
        ensures { Put (slice_range self.now from to) set.old set.new }
    {
        let mut k = from;
        while k < to {
            k = self.insert_from(k, to, set);
        }
    }

    // Adds the rows of a block that begins at a place and ends at another or before, or the row there. Answers the place behind.
    fn insert_from(&self, k: usize, to: usize, set: &mut RowSet) -> usize
        requires some { k < to }
        requires within { to ≤ length self.now }
        requires rows { length set.old ≡ length self.now }
        ensures more { k < result }
        ensures within { result ≤ to }
        ensures put { Put (slice_range self.now k result) set.old set.new }
    {
        match self.block_at(k, to) {
            Some(block) => {
                set.or(block);
                k + BLOCK
            }
            None => {
                set.insert(self.rows[k]);
                k + 1
            }
        }
    }

    // The block that begins at a place, where one does that ends at another or before.
    fn block_at(&self, k: usize, to: usize) -> Option<&RowSet>
        requires some { k < to }
        requires within { to ≤ length self.now }
        ensures ends { IfSome result (λ block. k + 1024 ≤ to) }
        ensures told { IfSome result (λ block. IsBlock self.now k block.now) }
    {
        if k % BLOCK > 0 || to - k < BLOCK {
            return None;
        }
        self.blocks.get(k / BLOCK)
    }
}

// So many rows, counted from 0.
pub(crate) fn rows_counted(alloc: Global, count: usize) -> Result<Vec<usize>, AllocError>
    ensures { IfOk result (λ rows. rows.items ≡ range_with_len 0 count) }
{
    let mut rows = Vec::with_capacity(alloc, count)?;
    for row in 0..count {
        rows.push(row)?;
    }
    Ok(rows)
}

// Of each full block of rows which they are.
fn blocks_of(alloc: Global, rows: &[usize]) -> Result<Vec<RowSet>, AllocError>
    requires { AreAll rows.now }
    ensures { IfOk result (λ blocks. AreBlocks rows.now blocks.items) }
{
    let full = rows.len() / BLOCK;
    let mut blocks = Vec::with_capacity(alloc, full)?;
    for b in 0..full {
        blocks.push(block_of(alloc, rows, b * BLOCK)?)?;
    }
    Ok(blocks)
}

// Of the block of rows from a place on which they are.
fn block_of(alloc: Global, rows: &[usize], from: usize) -> Result<RowSet, AllocError>
    requires all { AreAll rows.now }
    requires within { from + 1024 ≤ length rows.now }
    ensures { IfOk result (IsBlock rows.now from) }
{
    let mut set = RowSet::none(alloc, rows.len())?;
    for k in from..from + BLOCK {
        set.insert(rows[k]);
    }
    Ok(set)
}
