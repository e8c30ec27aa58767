ghost use Rattle.std.specs.Prelude.{◌≡◌, length, min};
ghost use Rattle.dr_image.specs.Words.{spelled_longs};
ghost use Rattle.dr_image.specs.Image.{bytes_of_column, bytes_of};
ghost use Rattle.dr_segment.specs.Tables.{column_seen, table_seen};

use crate::columns::Columns;
use crate::dimension::Dimension;

// How many bytes the image of columns has, or 2^64 - 1 where it has more.
pub(crate) fn image_size(columns: &Columns) -> u64
    ensures { result ≡ min (length (bytes_of (table_seen columns.now))) 18446744073709551615 }
{
    let mut size = longs_size(&columns.times).saturating_add(80);
    for metric in &columns.metrics {
        size = size.saturating_add(longs_size(metric));
    }
    for dimension in &columns.dims {
        size = size.saturating_add(dimension_size(dimension));
    }
    size
}

fn longs_size(longs: &[i64]) -> u64
    ensures { result ≡ min (length (spelled_longs longs.now)) 18446744073709551615 }
{
    (longs.len() as u64).saturating_mul(8)
}

fn dimension_size(dimension: &Dimension) -> u64
    ensures { result ≡ min (length (bytes_of_column (column_seen dimension.now))) 18446744073709551615 }
{
    let values = (dimension.dictionary.len() as u64).saturating_mul(8);
    let rows = (dimension.numbers.len() as u64).saturating_mul(8);
    let mut size = values.saturating_add(rows).saturating_add(8);
    for text in &dimension.dictionary {
        size = size.saturating_add(text.len() as u64);
    }
    size
}
