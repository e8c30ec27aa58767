use crate::rows::are_those_of_three;
use dr_base::Row;
use dr_fragment::{Fragment, SharedFragment};
use std::alloc::Global;
use std::test::Fail;

/// The image of the rows of three events, by another program.
const TWO: &str =
    "4452534701000100ec0000000000000000f451c28c01000000000000000000000300000000000000020004000200000000f451c28c01000080e288c28c010000020000000000000001000000000000000c00000000000000feffffffffffffff0500000000000000feffffffffffffff0700000000000000feffffffffffffff020000000200000001000000020000004142000000000100000001000000020000000000000001000000010000000200000002000000656e00000000000000000200000000000000010000000176456ea60f872785b4d045f35b0fafa9726456071496520833166c2987bead";

fn rows_of(alloc: Global, range: &Fragment) -> Result<Vec<Row>, Fail> {
    let mut rows = Vec::new(alloc);
    for i in 0..range.len() {
        rows.push(range.row(alloc, i)?)?;
    }
    Ok(rows)
}

#[test]
fn a_range_of_an_image_gives_its_rows(rt: HostRuntime) -> Result<(), Fail> {
    let alloc = rt.alloc();
    let bytes = hex::decode(alloc, TWO)
        .ok()
        .ok_or("the digits are hexadecimal")?;
    let range = Fragment::of_image(bytes)?;
    let rows = rows_of(alloc, &range)?;
    assert!(rt; are_those_of_three(&rows));
    assert!(rt; range.view().is_some());
    let shared = SharedFragment::new(alloc, range)?;
    assert!(rt; shared.view().is_some());
    Ok(())
}
