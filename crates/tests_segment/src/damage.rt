use dr_image::SegmentView;
use std::alloc::Global;
use std::test::Fail;

// The image of one row: time 1704067200000, page `A`, no metric, range 0 to 1. Worked out by hand, with the digest of
// another program.
const ONE: &str =
    "4452534701000100710000000000000000f451c28c01000000000000000000000100000000000000010000000100000000f451c28c0100000100000001000000010000004100000000010000000000000059c035dedbe50d5a96c61a61c6b70c682da9059ad7da222ddb19cd950b12c88e";

// The image of the rows (1704067200000, A, en, 2, 12, 5, 7) and (1704070800000, B, en, 1, -2, -2, -2), range 0 to 3, by
// another program; and the same with one thing altered and a right digest.
const TWO: &str =
    "4452534701000100ec0000000000000000f451c28c01000000000000000000000300000000000000020004000200000000f451c28c01000080e288c28c010000020000000000000001000000000000000c00000000000000feffffffffffffff0500000000000000feffffffffffffff0700000000000000feffffffffffffff020000000200000001000000020000004142000000000100000001000000020000000000000001000000010000000200000002000000656e00000000000000000200000000000000010000000176456ea60f872785b4d045f35b0fafa9726456071496520833166c2987bead";

const LETTER_OF_NO_TEXT: &str =
    "4452534701000100ec0000000000000000f451c28c01000000000000000000000300000000000000020004000200000000f451c28c01000080e288c28c010000020000000000000001000000000000000c00000000000000feffffffffffffff0500000000000000feffffffffffffff0700000000000000feffffffffffffff02000000020000000100000002000000ff42000000000100000001000000020000000000000001000000010000000200000002000000656e0000000000000000020000000000000001000000a558406bd79cd12c5e38525c913f859dbd756e08051d0772227c8e4766f66591";

const VALUES_THAT_FALL: &str =
    "4452534701000100ec0000000000000000f451c28c01000000000000000000000300000000000000020004000200000000f451c28c01000080e288c28c010000020000000000000001000000000000000c00000000000000feffffffffffffff0500000000000000feffffffffffffff0700000000000000feffffffffffffff020000000200000001000000020000004241000000000100000001000000020000000000000001000000010000000200000002000000656e0000000000000000020000000000000001000000895e5544d839d0fb9d3f283353cfd601e1b5ffb62d94b10d09f835b1987a996b";

const NUMBER_OUT_OF_DICTIONARY: &str =
    "4452534701000100ec0000000000000000f451c28c01000000000000000000000300000000000000020004000200000000f451c28c01000080e288c28c010000020000000000000001000000000000000c00000000000000feffffffffffffff0500000000000000feffffffffffffff0700000000000000feffffffffffffff020000000200000001000000020000004142000000000100000001000000020000000000000001000000010000000200000002000000656e0100000000000000020000000000000001000000d01e57250b3df582a21ca383e3628988099043429a0575d1ef5b9108df450831";

const TIMES_SWAPPED: &str =
    "4452534701000100ec0000000000000000f451c28c01000000000000000000000300000000000000020004000200000080e288c28c01000000f451c28c010000020000000000000001000000000000000c00000000000000feffffffffffffff0500000000000000feffffffffffffff0700000000000000feffffffffffffff020000000200000001000000020000004142000000000100000001000000020000000000000001000000010000000200000002000000656e000000000000000002000000000000000100000021dca2c1ab1c4f0c9f20f1ab9dd80f31a86cd97277c91a9dce57d8c1cee1ece6";

const CHUNK_A_DAY_LATER: &str =
    "4452534701000100ec00000000000000005078c78c01000000000000000000000300000000000000020004000200000000f451c28c01000080e288c28c010000020000000000000001000000000000000c00000000000000feffffffffffffff0500000000000000feffffffffffffff0700000000000000feffffffffffffff020000000200000001000000020000004142000000000100000001000000020000000000000001000000010000000200000002000000656e000000000000000002000000000000000100000069a5485f1d111131b28da450a381470d34af58c1e20d35362e82c131aed4a9f3";

const ROWS_SWAPPED: &str =
    "4452534701000100ec0000000000000000f451c28c01000000000000000000000300000000000000020004000200000000f451c28c01000080e288c28c010000020000000000000001000000000000000c00000000000000feffffffffffffff0500000000000000feffffffffffffff0700000000000000feffffffffffffff020000000200000001000000020000004142000000000100000001000000020000000100000000000000010000000200000002000000656e0000000000000000020000000000000001000000003cff68f3515f45318d3e32e2fd3e587934fa51e4d95200a6557b2db1f63498";

const BITS: [u8; 8] = [1, 2, 4, 8, 16, 32, 64, 128];

// The number of the refusal of bytes, 0 where they open.
fn opened(bytes: &[u8]) -> u16 {
    match SegmentView::open(bytes) {
        Ok(_) => 0,
        Err(error) => error.number(),
    }
}

fn bytes_of(alloc: Global, text: &str) -> Option<Vec<u8>> {
    hex::decode(alloc, text).ok()
}

// What the bytes of a text are opened as.
fn opens_as(alloc: Global, text: &str) -> u16 {
    match bytes_of(alloc, text) {
        Some(bytes) => opened(&bytes),
        None => 1,
    }
}

// How many of the proper prefixes are refused as cut short.
fn cut_short(bytes: &[u8]) -> usize {
    let mut count: usize = 0;
    for len in 0..bytes.len() {
        if opened(&bytes[..len]) == 50 {
            count = count.wrapping_add(1);
        }
    }
    count
}

// How many of the changes of one bit are refused with a number.
fn flips(bytes: &mut [u8], number: u16) -> usize {
    let mut count: usize = 0;
    for place in 0..bytes.len() {
        for bit in &BITS {
            let was = bytes[place];
            bytes[place] = was ^ *bit;
            if opened(bytes) == number {
                count = count.wrapping_add(1);
            }
            bytes[place] = was;
        }
    }
    count
}

#[test]
fn opens_images(rt: HostRuntime) {
    assert!(rt; opens_as(rt.alloc(), ONE) == 0);
    assert!(rt; opens_as(rt.alloc(), TWO) == 0);
}

#[test]
fn refuses_what_was_altered(rt: HostRuntime) {
    assert!(rt; opens_as(rt.alloc(), LETTER_OF_NO_TEXT) == 54);
    assert!(rt; opens_as(rt.alloc(), VALUES_THAT_FALL) == 54);
    assert!(rt; opens_as(rt.alloc(), NUMBER_OUT_OF_DICTIONARY) == 55);
    assert!(rt; opens_as(rt.alloc(), TIMES_SWAPPED) == 56);
    assert!(rt; opens_as(rt.alloc(), CHUNK_A_DAY_LATER) == 56);
    assert!(rt; opens_as(rt.alloc(), ROWS_SWAPPED) == 57);
}

#[test]
fn refuses_what_was_cut_or_lengthened(rt: HostRuntime) -> Result<(), Fail> {
    let mut bytes = bytes_of(rt.alloc(), ONE).ok_or("the digits are hexadecimal")?;
    assert!(rt; bytes.len() == 113);
    assert!(rt; cut_short(&bytes) == 113);
    bytes.push(0)?;
    assert!(rt; opened(&bytes) == 53);
    Ok(())
}

// 32 flips are in the magic, 31 in the version and the mark, and the others in lengths or under the digest.
#[test]
fn refuses_each_flip_of_a_bit(rt: HostRuntime) -> Result<(), Fail> {
    let mut bytes = bytes_of(rt.alloc(), ONE).ok_or("the digits are hexadecimal")?;
    assert!(rt; flips(&mut bytes, 51) == 32);
    assert!(rt; flips(&mut bytes, 52) == 31);
    assert!(rt; flips(&mut bytes, 50) == 60);
    assert!(rt; flips(&mut bytes, 53) == 197);
    assert!(rt; flips(&mut bytes, 58) == 584);
    Ok(())
}
