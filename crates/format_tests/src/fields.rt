//! Fields by their place, compressed integers, checks and lists (`rtr_bytes`).

use rtr_bytes::{
    Fault, Sequence, compressed_at, ensure, put_compressed, put_u32, u8_or_zero, u16_at,
    u16_or_zero, u32_at, u32_or_zero, u64_at,
};
use std::test::Fail;

const BYTES: [u8; 9] = [1, 2, 3, 4, 5, 6, 7, 8, 9];

/// Numbers of 16, 32 and 64 bits at places, some past the end; then with 0 where a field is cut.
const FIELDS: &str =
    "Some(513) Some(2312) None Some(151521030) None None Some(650777868590383874) None 9 0 2312 0 151521030 0";

#[test]
fn fields_by_place(rt: HostRuntime) -> Result<(), Fail> {
    let known = format!(in rt.alloc();
        "{:?} {:?} {:?} {:?} {:?} {:?} {:?} {:?}",
        u16_at(&BYTES, 0),
        u16_at(&BYTES, 7),
        u16_at(&BYTES, 8),
        u32_at(&BYTES, 5),
        u32_at(&BYTES, 6),
        u32_at(&BYTES, u32::MAX),
        u64_at(&BYTES, 1),
        u64_at(&BYTES, 2)
    )?;
    let zeros = format!(in rt.alloc();
        "{} {} {} {} {} {}",
        u8_or_zero(&BYTES, 8),
        u8_or_zero(&BYTES, 9),
        u16_or_zero(&BYTES, 7),
        u16_or_zero(&BYTES, 8),
        u32_or_zero(&BYTES, 5),
        u32_or_zero(&BYTES, 6)
    )?;
    assert_eq!(rt; format!(in rt.alloc(); "{known} {zeros}")?.as_str(), FIELDS);
    Ok(())
}

#[test]
fn checks(rt: HostRuntime) {
    let fault = Fault {
        check: 7,
        place: 12,
    };
    assert_eq!(rt; ensure(true, 7, 12), Ok(()));
    assert_eq!(rt; ensure(false, 7, 12), Err(fault));
}

#[test]
fn sequence_of_a_vector(rt: HostRuntime) -> Result<(), Fail> {
    let sequence = Sequence::from_vec(vec![in rt.alloc(); 3u32, 5]?);
    assert_eq!(rt; sequence.as_slice(), [3, 5].as_slice());
    assert_eq!(rt; sequence.len(), 2);
    assert!(rt; !sequence.is_empty());
    let mut folded = 0u32;
    for item in &sequence {
        folded = folded.wrapping_mul(10).wrapping_add(*item);
    }
    assert_eq!(rt; folded, 35);
    Ok(())
}

#[test]
fn spellings(rt: HostRuntime) -> Result<(), Fail> {
    let rows: [(u32, &[u8]); 6] = [
        (3, &[0x03]),
        (0x7F, &[0x7F]),
        (0x80, &[0x80, 0x80]),
        (0x3FFF, &[0xBF, 0xFF]),
        (0x4000, &[0xC0, 0x00, 0x40, 0x00]),
        (0x1FFF_FFFF, &[0xDF, 0xFF, 0xFF, 0xFF]),
    ];
    for (value, spelling) in rows {
        let mut out = Vec::new(rt.alloc());
        assert!(rt; put_compressed(&mut out, value).is_ok());
        assert_eq!(rt; out.as_slice(), spelling);
        assert_eq!(rt;
            compressed_at(spelling, 0),
            Some((value, spelling.len() as u32))
        );
    }
    Ok(())
}

#[test]
fn longer_cut_and_none(rt: HostRuntime) {
    assert_eq!(rt; compressed_at(&[9, 0x80, 0x03, 9], 1), Some((3, 3)));
    assert_eq!(rt; compressed_at(&[0xC0, 0, 0, 3], 0), Some((3, 4)));
    assert_eq!(rt; compressed_at(&[0xE0], 0), None);
    assert_eq!(rt; compressed_at(&[0x80], 0), None);
    assert_eq!(rt; compressed_at(&[0xDF, 0xFF, 0xFF], 0), None);
    assert_eq!(rt; compressed_at(&[0], 1), None);
    assert_eq!(rt; compressed_at(&[0], u32::MAX), None);
}

#[test]
fn number_in_its_place(rt: HostRuntime) {
    let mut bytes = [9; 6];
    assert!(rt; put_u32(&mut bytes, 1, 0x0403_0201));
    assert_eq!(rt; bytes, [9, 1, 2, 3, 4, 9]);
    assert!(rt; !put_u32(&mut bytes, 3, 7));
    assert!(rt; !put_u32(&mut bytes, u32::MAX, 7));
    assert_eq!(rt; bytes, [9, 1, 2, 3, 4, 9]);
}
