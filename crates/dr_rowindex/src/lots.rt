ghost use Rattle.std.specs.Prelude.{◌<◌, ◌≤◌};

/// Behind which place those of so many rows end that are asked together with the one at a place, of which there may be so many, so that the
/// memory for them is bounded. It takes constant time.
pub fn lot_end(from: usize, count: usize, most: usize) -> usize
    requires some { from < count }
    requires most { 0 < most }
    ensures more { from < result }
    ensures within { result ≤ count }
{
    if count - from > most {
        from + most
    } else {
        count
    }
}
