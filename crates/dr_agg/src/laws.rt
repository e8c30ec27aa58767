//! The laws of rollup. Each function does nothing: its contract is the law.

ghost use Rattle.dr_agg.specs.Laws.{RollupIsRollup, RollupIsUnique, RollupIsRising, RollupOfTwoPieces, RollupOfPieces, RollupOfOneMore, RollupOfRearranged, KeysOfRollup, RollupFits, AddedRowFits, FoldOfRollup, ColumnOfRollup, AbsentColumnOfRollup, FoldOfRowsApart, FoldOfRearranged};

/// The rollup of entries has, in the order of keys, each key that occurs: with one row, each column of which is the
/// combination of that column over the entries of the key, or without rollup with just these entries in their order.
pub fn rollup_is_rollup()
    ensures { RollupIsRollup }
{}

/// There is exactly one such list.
pub fn rollup_is_unique()
    ensures { RollupIsUnique }
{}

/// With rollup each row has a greater key than the one before.
pub fn rollup_is_rising()
    ensures { RollupIsRising }
{}

/// The rollup of two pieces is the join of their rollups.
pub fn rollup_of_two_pieces()
    ensures { RollupOfTwoPieces }
{}

/// The rollup of any number of pieces is the join of their rollups.
pub fn rollup_of_pieces()
    ensures { RollupOfPieces }
{}

/// The rollup of entries and one more is the rollup of the entries with a row added.
pub fn rollup_of_one_more()
    ensures { RollupOfOneMore }
{}

/// With rollup the order of the entries does not matter.
pub fn rollup_of_rearranged()
    ensures { RollupOfRearranged }
{}

/// A test of keys is passed by a row of the rollup just where it is passed by an entry.
pub fn keys_of_rollup()
    ensures { KeysOfRollup }
{}

/// Where each entry has a value for each column, so has each row of the rollup.
pub fn rollup_fits()
    ensures { RollupFits }
{}

/// Where each row has a value for each column, they still have after one is added.
pub fn added_row_fits()
    ensures { AddedRowFits }
{}

/// What a reading of the metrics folds to, over the rows whose keys pass a test, is what it folds to over the entries,
/// if it reads from the combination of two rows the combination of what it reads from each.
pub fn fold_of_rollup()
    ensures { FoldOfRollup }
{}

/// What a column folds to, over the rows whose keys pass a test, is what it folds to over the entries, for each
/// aggregation that matches the column.
pub fn column_of_rollup()
    ensures { ColumnOfRollup }
{}

/// The same for a column that isn't there, which reads 0.
pub fn absent_column_of_rollup()
    ensures { AbsentColumnOfRollup }
{}

/// Without rollup every fold over the rows is the fold over the entries.
pub fn fold_of_rows_apart()
    ensures { FoldOfRowsApart }
{}

/// A fold does not depend on the order of the rows.
pub fn fold_of_rearranged()
    ensures { FoldOfRearranged }
{}
