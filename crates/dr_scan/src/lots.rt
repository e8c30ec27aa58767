ghost use Rattle.std.specs.Prelude.{◌<◌, ◌≤◌, length};

use crate::row_count::RowCount;
use dr_select::{ROWS_ALONE, ROWS_AT_ONCE};

/// Behind which segment those end whose rows are asked together with the rows of the one at a place: behind itself at least. It takes
/// time by their number.
pub(crate) fn lot_end<S: RowCount>(segments: &[S], from: usize) -> usize
    requires { from < length segments.now }
    ensures more { from < result }
    ensures within { result ≤ length segments.now }
{
    let mut rows = 0usize;
    for i in from..segments.len() {
        let count = segments[i].row_count();
        rows = rows.saturating_add(count.max(1));
        if count >= ROWS_ALONE || rows > ROWS_AT_ONCE {
            return i.max(from + 1);
        }
    }
    segments.len()
}
