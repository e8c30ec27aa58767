ghost use Rattle.std.specs.Prelude.{◌≡◌, ◌<◌, ◌≤◌, length, map, get_or, All, IfOk};
ghost use Rattle.std.specs.List.{range_with_len};
ghost use Rattle.dr_segment.specs.Columns.{AreRanked, AreApart, AreRanks};

use std::alloc::{AllocError, Global};

// A text with its place in another order.
#[derive(Clone, Copy)]
pub(crate) struct PlacedText<'a> {
    pub(crate) text: &'a str,
    pub(crate) place: u32,
}

// The texts in the order of their bytes, each with the place at which it stood.
pub(crate) fn ranked<'a>(
    alloc: Global,
    texts: &[&'a str],
) -> Result<Vec<PlacedText<'a>>, AllocError>
    requires { length texts.now ≤ 134217728 }
    ensures { IfOk result (λ ranked. AreRanked (map (λ t. t.now) texts.now) (map (λ r. r.text.now) ranked.items) (map (λ r. r.place) ranked.items)) }
{
    let mut ranked = placed(alloc, texts)?;
    ranked.sort_unstable_by_key(|entry| entry.text);
    Ok(ranked)
}

// The texts with their places.
fn placed<'a>(alloc: Global, texts: &[&'a str]) -> Result<Vec<PlacedText<'a>>, AllocError>
    requires { length texts.now ≤ 134217728 }
    ensures texts { IfOk result (λ placed. map (λ r. r.text) placed.items ≡ texts.now) }
    ensures places { IfOk result (λ placed. map (λ r. r.place) placed.items ≡ range_with_len 0 (length texts.now)) }
{
    let mut placed = Vec::with_capacity(alloc, texts.len())?;
    for (place, text) in texts.iter().enumerate() {
        placed.push(PlacedText {
            text: *text,
            place: place as u32,
        })?;
    }
    Ok(placed)
}

// For each of the places at which texts stood its rank.
pub(crate) fn ranks(alloc: Global, ranked: &[PlacedText]) -> Result<Vec<u32>, AllocError>
    requires few { length ranked.now ≤ 134217728 }
    requires inside { All (λ n. n < length ranked.now) (map (λ r. r.place) ranked.now) }
    requires apart { AreApart (map (λ r. r.place) ranked.now) }
    ensures { IfOk result (λ ranks. AreRanks (map (λ r. r.place) ranked.now) ranks.items) }
{
    let mut ranks = vec![in alloc; 0u32; ranked.len()]?;
    for (rank, entry) in ranked.iter().enumerate() {
        ranks[entry.place as usize] = rank as u32;
    }
    Ok(ranks)
}

// The ranks of places.
pub(crate) fn ranks_at(alloc: Global, places: &[u32], ranks: &[u32]) -> Result<Vec<u32>, AllocError>
    requires { All (λ n. n < length ranks.now) places.now }
    ensures { IfOk result (λ found. found.items ≡ map (λ n. get_or ranks.now n 0) places.now) }
{
    let mut found = Vec::with_capacity(alloc, places.len())?;
    for place in places {
        found.push(ranks[*place as usize])?;
    }
    Ok(found)
}

// The texts alone.
pub(crate) fn texts_of<'a>(
    alloc: Global,
    ranked: &[PlacedText<'a>],
) -> Result<Vec<&'a str>, AllocError>
    ensures { IfOk result (λ texts. map (λ t. t.now) texts.items ≡ map (λ r. r.text.now) ranked.now) }
{
    let mut texts = Vec::with_capacity(alloc, ranked.len())?;
    for entry in ranked {
        texts.push(entry.text)?;
    }
    Ok(texts)
}
