ghost use Rattle.std.specs.Prelude.{◌≡◌, map};
ghost use Rattle.dr_agg.specs.declared.kind.Kind.TheVariants.{LongSum, LongMin, LongMax};
ghost use Rattle.dr_agg.specs.Combination.{fold_of};
ghost use Rattle.dr_image.specs.Words.{long};

use dr_agg::Kind;

// The numbers of eight bytes each, combined one by one.
pub(crate) fn fold_column(kind: Kind, cells: &[[u8; 8]]) -> i64
    ensures { result ≡ fold_of kind (map long cells.now) }
{
    match kind {
        Kind::Count | Kind::LongSum => sum_of(cells),
        Kind::LongMin => least_of(cells),
        Kind::LongMax => greatest_of(cells),
    }
}

fn sum_of(cells: &[[u8; 8]]) -> i64
    ensures { result ≡ fold_of LongSum (map long cells.now) }
{
    let mut sum = 0i64;
    for cell in cells {
        sum = Kind::LongSum.combine(sum, signed(cell));
    }
    sum
}

fn least_of(cells: &[[u8; 8]]) -> i64
    ensures { result ≡ fold_of LongMin (map long cells.now) }
{
    let mut least = i64::MAX;
    for cell in cells {
        least = Kind::LongMin.combine(least, signed(cell));
    }
    least
}

fn greatest_of(cells: &[[u8; 8]]) -> i64
    ensures { result ≡ fold_of LongMax (map long cells.now) }
{
    let mut greatest = i64::MIN;
    for cell in cells {
        greatest = Kind::LongMax.combine(greatest, signed(cell));
    }
    greatest
}

#[tactic(auto, unfolding(dr_image::specs::Words::long))]
fn signed(cell: &[u8; 8]) -> i64
    ensures { result ≡ long cell.now }
{
    i64::from_le_bytes(*cell)
}
