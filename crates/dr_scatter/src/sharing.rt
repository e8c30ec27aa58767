ghost use Rattle.std.specs.Prelude.{◌≡◌, ◌<◌, ◌≤◌, ◌*◌, ◌/◌, min};

/// The most workers that there are.
const MOST_WORKERS: usize = 16;

/// How many workers there are for so many ranges: as many as are asked for, at least 1 and at most 16, but no more than ranges.
pub fn worker_count(workers: usize, count: usize) -> usize
    ensures few { result ≤ 16 }
    ensures within { result ≤ count }
    ensures some { 0 < count → 0 < result }
{
    workers.clamp(1, MOST_WORKERS).min(count)
}

/// Where the share of worker k begins, of so many ranges and workers: at the floor of k times the ranges by the workers.
pub fn begin_of(k: usize, count: usize, workers: usize) -> usize
    requires some { 0 < workers }
    requires few { workers ≤ 16 }
    requires k { k ≤ workers }
    ensures value { result ≡ k * count / workers }
    ensures within { result ≤ count }
{
    k * (count / workers) + k * (count % workers) / workers
}
