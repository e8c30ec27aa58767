ghost use Rattle.std.specs.Prelude.{◌≡◌, ◌<◌, ◌↔◌, ℕ, IfOk, IfSome, IsTrue, IsNone, map};
ghost use Rattle.dr_merge.specs.declared.job.Job.{Job};
ghost use Rattle.dr_chunks.specs.Held.{range_of};
ghost use Rattle.dr_timeline.specs.Kept.{StandsIn};
ghost use Rattle.dr_timeline.specs.Steps.{least_version as least_of};

use dr_chunks::SealedRange;
use dr_fragment::{Fragments, SharedFragment};
use dr_merge::{Job, Purpose, Serials};
use std::alloc::{AllocError, Global};

/// A job over adjacent sealed ranges of a chunk.
pub fn job_over(
    alloc: Global,
    chunk: i64,
    ranges: &[SealedRange],
    purpose: Purpose,
) -> Result<Job, AllocError>
    ensures { IfOk result (λ job. job ≡ record { chunk = chunk; serials = map (λ r. r.serial) ranges.now; inputs = map (λ r. r.fragment) ranges.now; purpose = purpose }) }
{
    let mut serials = Serials::new(alloc);
    let mut inputs = Fragments::new(alloc);
    for range in ranges {
        serials.push(range.serial)?;
        inputs.push(range.fragment.share()?)?;
    }
    Ok(Job {
        chunk,
        serials,
        inputs,
        purpose,
    })
}

/// The first place from which on the job's ranges stand among the sealed ranges of its chunk.
pub fn place_of_job(sealed: &[SealedRange], job: &Job) -> Option<usize>
    ensures found { IfSome result (λ place. StandsIn sealed.now job.now place) }
    ensures first { IfSome result (λ place. (earlier : ℕ) → earlier < place → StandsIn sealed.now job.now earlier → ⊥) }
    ensures none { IsNone result → (place : ℕ) → StandsIn sealed.now job.now place → ⊥ }
{
    let count = job.inputs.len();
    if count == 0 || sealed.len() < count {
        return None;
    }
    for place in 0..sealed.len() - count + 1 {
        let ranges = &sealed[place..place + count];
        if are_ranges(ranges, job.serials.as_slice(), job.inputs.as_slice()) {
            return Some(place);
        }
    }
    None
}

// The serials are compared before any row is.
fn are_ranges(ranges: &[SealedRange], serials: &[u64], inputs: &[SharedFragment]) -> bool
    ensures { IsTrue result ↔ ((map (λ r. r.serial) ranges.now ≡ serials.now) × (map (λ r. r.fragment) ranges.now ≡ inputs.now)) }
{
    if !have_serials(ranges, serials) {
        return false;
    }
    have_fragments(ranges, inputs)
}

fn have_serials(ranges: &[SealedRange], serials: &[u64]) -> bool
    ensures { IsTrue result ↔ (map (λ r. r.serial) ranges.now ≡ serials.now) }
{
    if ranges.len() != serials.len() {
        return false;
    }
    for (i, range) in ranges.iter().enumerate() {
        if range.serial != serials[i] {
            return false;
        }
    }
    true
}

// Two fragments are told apart by their chunk and their range before their rows, and these by the first that differs.
fn have_fragments(ranges: &[SealedRange], inputs: &[SharedFragment]) -> bool
    ensures { IsTrue result ↔ (map (λ r. r.fragment) ranges.now ≡ inputs.now) }
{
    if ranges.len() != inputs.len() {
        return false;
    }
    for (i, range) in ranges.iter().enumerate() {
        if !range.fragment.equals(&inputs[i]) {
            return false;
        }
    }
    true
}

/// The least version of some ranges.
pub fn least_version(ranges: &[SealedRange]) -> u64
    ensures { result ≡ least_of (map range_of ranges.now) }
{
    let Some(first) = ranges.first() else {
        return 0;
    };
    let mut least = first.version;
    for range in &ranges[1..] {
        least = least.min(range.version);
    }
    least
}
