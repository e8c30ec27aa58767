use dr_base::Text;
use dr_dict::{GrowingDict, SortedDict, renumbering};
use std::alloc::Global;
use std::test::Fail;

// The dictionary of three texts that come in this order, and one of them again.
fn dictionary(alloc: Global) -> Result<GrowingDict, Fail> {
    let mut dict = GrowingDict::new(alloc, 3);
    for word in ["b", "", "a", "b"] {
        let text = Text::from_str(alloc, word)?;
        dict.add(&text)?;
    }
    Ok(dict)
}

fn is(text: Option<&str>, wanted: &str) -> bool {
    match text {
        Some(text) => text == wanted,
        None => false,
    }
}

#[test]
fn sorts_the_copy_of_a_dictionary(rt: HostRuntime) -> Result<(), Fail> {
    let dict = dictionary(rt.alloc())?.copy()?;
    let sorted = SortedDict::of(&dict)?;
    assert!(rt; is(sorted.text(0), "") && is(sorted.text(1), "a") && is(sorted.text(2), "b"));
    let places = renumbering(&dict)?;
    assert!(rt; places.as_slice() == [2, 0, 1].as_slice());
    Ok(())
}
