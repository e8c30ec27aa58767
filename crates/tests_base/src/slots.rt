ghost use Rattle.std.specs.Prelude.{◌≡◌};

use dr_slots::{Sought, Table};
use std::test::Fail;

// What stands at one place.
#[derive(Clone, Copy)]
struct At {
    place: usize,
}

impl Sought for At {
    ghost stands = { λ at place. place ≡ at.place };

    fn stands_at(&self, place: usize) -> bool {
        place == self.place
    }
}

#[test]
fn finds_64_places_of_one_hash(rt: HostRuntime) -> Result<(), Fail> {
    let mut table = Table::new(rt.alloc());
    let mut put = 0usize;
    for place in 0..200 {
        if table.put(7, place)? {
            put = put.saturating_add(1);
        }
    }
    assert!(rt; put == 64);
    assert!(rt; table.find(7, &At { place: 63 }) == Some(63));
    assert!(rt; table.find(7, &At { place: 64 }).is_none());
    assert!(rt; table.find(8, &At { place: 63 }).is_none());
    Ok(())
}

#[test]
fn finds_each_place_of_a_copy(rt: HostRuntime) -> Result<(), Fail> {
    let alloc = rt.alloc();
    let mut table = Table::new(alloc);
    for number in 0u32..1000 {
        assert!(rt; table.put(hash_of(number), number as usize)?);
    }
    let copy = table.copy(alloc)?;
    for number in 0u32..1000 {
        let place = number as usize;
        assert!(rt; copy.find(hash_of(number), &At { place }) == Some(place));
    }
    Ok(())
}

fn hash_of(number: u32) -> u32 {
    number.wrapping_mul(2654435769)
}
