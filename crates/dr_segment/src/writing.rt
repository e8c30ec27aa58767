ghost use Rattle.std.specs.Prelude.{◌≡◌, ◌++◌, ◌%◌, ◌≤◌, length, map, All, OnOk};
ghost use Rattle.std.specs.List.{flat_map};
ghost use Rattle.dr_image.specs.Words.{four_bytes, eight_bytes, spelled_words, spelled_longs};
ghost use Rattle.dr_image.specs.Pieces.{ends_from};
ghost use Rattle.dr_image.specs.Image.{joined, bytes_of_column};
ghost use Rattle.dr_segment.specs.Tables.{column_seen};

use crate::dimension::Dimension;
use crate::row_lists::row_lists;
use std::alloc::{AllocError, Global};

// Puts a number of four bytes behind.
#[tactic(auto, unfolding(dr_image::specs::Words::four_bytes))]
pub(crate) fn put_word(out: &mut Vec<u8>, n: u32) -> Result<(), AllocError>
    ensures { OnOk result (out.new.items ≡ out.old.items ++ four_bytes n) }
{
    out.extend_from_slice(&n.to_le_bytes())?;
    Ok(())
}

// Puts a number of eight bytes with a sign behind.
#[tactic(auto, unfolding(dr_image::specs::Words::eight_bytes))]
pub(crate) fn put_long(out: &mut Vec<u8>, n: i64) -> Result<(), AllocError>
    ensures { OnOk result (out.new.items ≡ out.old.items ++ eight_bytes n) }
{
    out.extend_from_slice(&n.to_le_bytes())?;
    Ok(())
}

// Puts the low four bytes of a number behind.
pub(crate) fn put_count(out: &mut Vec<u8>, n: usize) -> Result<(), AllocError>
    ensures { OnOk result (out.new.items ≡ out.old.items ++ four_bytes n) }
{
    put_word(out, (n % 4_294_967_296) as u32)?;
    Ok(())
}

fn put_words(out: &mut Vec<u8>, words: &[u32]) -> Result<(), AllocError>
    ensures { OnOk result (out.new.items ≡ out.old.items ++ spelled_words words.now) }
{
    for word in words {
        put_word(out, *word)?;
    }
    Ok(())
}

// Puts numbers of eight bytes behind.
pub(crate) fn put_longs(out: &mut Vec<u8>, longs: &[i64]) -> Result<(), AllocError>
    ensures { OnOk result (out.new.items ≡ out.old.items ++ spelled_longs longs.now) }
{
    for long in longs {
        put_long(out, *long)?;
    }
    Ok(())
}

// Puts the values of metrics behind.
pub(crate) fn put_metrics(out: &mut Vec<u8>, metrics: &[Vec<i64>]) -> Result<(), AllocError>
    ensures { OnOk result (out.new.items ≡ out.old.items ++ flat_map spelled_longs (map (λ m. m.items) metrics.now)) }
{
    for metric in metrics {
        put_longs(out, metric)?;
    }
    Ok(())
}

fn put_texts(out: &mut Vec<u8>, texts: &[&str]) -> Result<(), AllocError>
    ensures { OnOk result (out.new.items ≡ out.old.items ++ joined (map (λ t. t.now) texts.now)) }
{
    for text in texts {
        out.extend_from_slice(text.as_bytes())?;
    }
    Ok(())
}

// How many bytes texts have, modulo 2^64.
fn text_bytes(texts: &[&str]) -> usize
    ensures { result ≡ length (joined (map (λ t. t.now) texts.now)) % 18446744073709551616 }
{
    let mut bytes: usize = 0;
    for text in texts {
        bytes = bytes.wrapping_add(text.len());
    }
    bytes
}

fn put_text_ends(out: &mut Vec<u8>, texts: &[&str]) -> Result<(), AllocError>
    ensures { OnOk result (out.new.items ≡ out.old.items ++ spelled_words (ends_from 0 (map (λ t. t.now) texts.now))) }
{
    let mut end: usize = 0;
    for text in texts {
        end = end.wrapping_add(text.len());
        put_count(out, end)?;
    }
    Ok(())
}

// Puts a dimension behind.
fn put_dimension(alloc: Global, out: &mut Vec<u8>, dimension: &Dimension) -> Result<(), AllocError>
    requires { length dimension.now.numbers.items ≤ 134217728 }
    ensures { OnOk result (out.new.items ≡ out.old.items ++ bytes_of_column (column_seen dimension.now)) }
{
    let lists = row_lists(alloc, &dimension.numbers, dimension.dictionary.len())?;
    put_count(out, dimension.dictionary.len())?;
    put_count(out, text_bytes(&dimension.dictionary))?;
    put_text_ends(out, &dimension.dictionary)?;
    put_texts(out, &dimension.dictionary)?;
    put_words(out, &dimension.numbers)?;
    put_words(out, &lists.ends)?;
    put_words(out, &lists.rows)?;
    Ok(())
}

// Puts dimensions behind.
pub(crate) fn put_dimensions(
    alloc: Global,
    out: &mut Vec<u8>,
    dims: &[Dimension],
) -> Result<(), AllocError>
    requires { All (λ d. length d.numbers.items ≤ 134217728) dims.now }
    ensures { OnOk result (out.new.items ≡ out.old.items ++ flat_map bytes_of_column (map column_seen dims.now)) }
{
    for dimension in dims {
        put_dimension(alloc, out, dimension)?;
    }
    Ok(())
}
