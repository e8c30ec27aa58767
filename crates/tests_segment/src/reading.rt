use dr_image::SegmentView;
use std::alloc::Global;

// The image of the rows (1704067200000, A, en, 2, 12, 5, 7) and (1704070800000, B, en, 1, -2, -2, -2), range 0 to 3, by
// another program.
const TWO: &str =
    "4452534701000100ec0000000000000000f451c28c01000000000000000000000300000000000000020004000200000000f451c28c01000080e288c28c010000020000000000000001000000000000000c00000000000000feffffffffffffff0500000000000000feffffffffffffff0700000000000000feffffffffffffff020000000200000001000000020000004142000000000100000001000000020000000000000001000000010000000200000002000000656e00000000000000000200000000000000010000000176456ea60f872785b4d045f35b0fafa9726456071496520833166c2987bead";

// Whether a view has what stands in front of the columns.
fn has_head(view: &SegmentView) -> bool {
    view.rollup() && view.chunk() == 1_704_067_200_000 && view.range() == (0, 3)
}

// Whether a view has the times.
fn has_times(view: &SegmentView) -> bool {
    if view.row_count() != 2 {
        return false;
    }
    view.time(0) == view.min_time()
        && view.time(1) == view.max_time()
        && view.min_time() == 1_704_067_200_000
        && view.max_time() == 1_704_070_800_000
}

// Whether a view has the values of the metrics.
fn has_metrics(view: &SegmentView) -> bool {
    if view.row_count() != 2 {
        return false;
    }
    if view.metric_count() != 4 {
        return false;
    }
    view.metric(0, 0) == 2
        && view.metric(1, 0) == 12
        && view.metric(2, 1) == -2
        && view.metric(3, 0) == 7
}

// Whether a view has the values of the first dimension.
fn has_pages(view: &SegmentView) -> bool {
    if view.row_count() != 2 {
        return false;
    }
    if view.dimension_count() != 2 {
        return false;
    }
    if view.value_count(0) != 2 {
        return false;
    }
    view.value(0, 1) == "B"
        && view.dim(0, 0) == "A"
        && view.dim(1, 1) == "en"
        && view.number(0, 1) == 1
}

// Whether cells of four bytes are these two.
fn are_rows(cells: &[[u8; 4]], rows: &[[u8; 4]]) -> bool {
    cells == rows
}

// Whether a view has the row lists of both dimensions.
fn has_row_lists(view: &SegmentView) -> bool {
    if view.dimension_count() != 2 {
        return false;
    }
    if view.value_count(0) != 2 || view.value_count(1) != 1 {
        return false;
    }
    are_rows(view.postings(0, 0), &[[0, 0, 0, 0]])
        && are_rows(view.postings(0, 1), &[[1, 0, 0, 0]])
        && are_rows(view.postings(1, 0), &[[0, 0, 0, 0], [1, 0, 0, 0]])
}

// Whether a view has the columns as they lie there: 1704067200000 and 1704070800000, and -2 as the least value of the second row.
fn has_columns(view: &SegmentView) -> bool {
    if view.metric_count() != 4 {
        return false;
    }
    let times: [[u8; 8]; 2] = [
        [0, 0xf4, 0x51, 0xc2, 0x8c, 1, 0, 0],
        [0x80, 0xe2, 0x88, 0xc2, 0x8c, 1, 0, 0],
    ];
    let least: [[u8; 8]; 2] = [
        [5, 0, 0, 0, 0, 0, 0, 0],
        [0xfe, 255, 255, 255, 255, 255, 255, 255],
    ];
    view.times() == times.as_slice() && view.metric_bytes(2) == least.as_slice()
}

// Whether the second row of a view is (1704070800000, B, en, 1, -2, -2, -2).
fn has_row(alloc: Global, view: &SegmentView) -> bool {
    if view.row_count() != 2 {
        return false;
    }
    match view.row(alloc, 1) {
        Ok(row) => {
            let texts = row.key.dims.as_slice();
            row.key.time == 1_704_070_800_000
                && texts.len() == 2
                && texts[0].as_str() == "B"
                && texts[1].as_str() == "en"
                && row.metrics.as_slice() == [1, -2, -2, -2].as_slice()
        }
        Err(_) => false,
    }
}

// Whether the bytes of a text open as a view that passes a test.
fn is_read(alloc: Global, text: &str) -> bool {
    match hex::decode(alloc, text) {
        Ok(bytes) => match SegmentView::open(&bytes) {
            Ok(view) => has_head(&view)
                && has_times(&view)
                && has_metrics(&view)
                && has_pages(&view)
                && has_row_lists(&view)
                && has_columns(&view)
                && has_row(alloc, &view),
            Err(_) => false,
        },
        Err(_) => false,
    }
}

#[test]
fn reads_each_column(rt: HostRuntime) {
    assert!(rt; is_read(rt.alloc(), TWO));
}
