use dr_base::{bool_field, int_field, list_field, parse_json};
use std::alloc::Global;
use std::test::Fail;

// The number, the flag, and the length of the list of an object.
fn fields_of(alloc: Global, bytes: &[u8]) -> Result<(i64, bool, usize), Fail> {
    let value = parse_json(alloc, bytes)?;
    let number = int_field(alloc, &value, "number")?;
    let flag = bool_field(alloc, &value, "flag")?;
    let list = list_field(alloc, &value, "list")?;
    Ok((number, flag, list.len()))
}

#[test]
fn reads_fields(rt: HostRuntime) -> Result<(), Fail> {
    let bytes = br#"{"number":1,"flag":true,"list":[0,[]],"number":-7}"#;
    let (number, flag, items) = fields_of(rt.alloc(), bytes)?;
    assert!(rt; number == -7 && flag && items == 2);
    Ok(())
}
