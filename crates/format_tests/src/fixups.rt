//! Signatures of fixups (`fixup_sigs`).

use fixup_sigs::{FieldToken, Fixup, SigType, read_fixup, write_fixup};
use std::test::Fail;

const FIELD: FieldToken = FieldToken {
    member_ref: false,
    row: 2,
};

const MEMBER: FieldToken = FieldToken {
    member_ref: true,
    row: 5,
};

#[test]
fn rows(rt: HostRuntime) -> Result<(), Fail> {
    let rows: [(Fixup, &[u8]); 20] = [
        (Fixup::MethodEntryDefToken { row: 3 }, &[0x14, 0x03]),
        (
            Fixup::MethodEntryRefToken { row: 0x80 },
            &[0x15, 0x80, 0x80],
        ),
        (Fixup::VirtualEntryDefToken { row: 1 }, &[0x17, 0x01]),
        (
            Fixup::VirtualEntryRefToken { row: 0x1FFF_FFFF },
            &[0x18, 0xDF, 0xFF, 0xFF, 0xFF],
        ),
        (Fixup::Helper { number: 0x200 }, &[0x1A, 0x82, 0x00]),
        (Fixup::Helper { number: 0x08 }, &[0x1A, 0x08]),
        (Fixup::StringHandle { at: 1 }, &[0x1B, 0x01]),
        (
            Fixup::NewObject {
                of: SigType::Class(5),
            },
            &[0x1C, 0x12, 0x05],
        ),
        (
            Fixup::NewObject {
                of: SigType::Object,
            },
            &[0x1C, 0x1C],
        ),
        (Fixup::NewArray { elem: 0x02 }, &[0x1D, 0x1D, 0x02]),
        (Fixup::NewArray { elem: 0x0B }, &[0x1D, 0x1D, 0x0B]),
        (Fixup::IsInstanceOf { of: SigType::Str }, &[0x1E, 0x0E]),
        (
            Fixup::IsInstanceOf {
                of: SigType::Array(0x08),
            },
            &[0x1E, 0x1D, 0x08],
        ),
        (
            Fixup::ChkCast {
                of: SigType::Int(0x08),
            },
            &[0x1F, 0x08],
        ),
        (Fixup::FieldAddress { field: MEMBER }, &[0x20, 0x10, 0x05]),
        (
            Fixup::FieldBaseOffset {
                of: SigType::Class(0x83),
            },
            &[0x26, 0x12, 0x80, 0x83],
        ),
        (Fixup::FieldOffset { field: FIELD }, &[0x27, 0x00, 0x02]),
        (
            Fixup::CheckFieldOffset {
                offset: 16,
                field: MEMBER,
            },
            &[0x2B, 0x10, 0x10, 0x05],
        ),
        (
            Fixup::CheckFieldOffset {
                offset: 0x80,
                field: FIELD,
            },
            &[0x2B, 0x80, 0x80, 0x00, 0x02],
        ),
        (
            Fixup::CheckFieldOffset {
                offset: 0,
                field: FIELD,
            },
            &[0x2B, 0x00, 0x00, 0x02],
        ),
    ];
    for (fixup, spelling) in rows {
        assert!(rt; spelling.len() > 0 && spelling.len() < 16);
        let mut out = Vec::new(rt.alloc());
        assert!(rt; write_fixup(&mut out, &fixup).is_ok());
        assert_eq!(rt; out.as_slice(), spelling);
        assert_eq!(rt; fixup.signature_len() as usize, spelling.len());
        assert_eq!(rt;
            read_fixup(spelling, 0),
            Some((fixup, spelling.len() as u32))
        );
        assert_eq!(rt; read_fixup(&spelling[..spelling.len() - 1], 0), None);
    }
    Ok(())
}

#[test]
fn longer_spellings(rt: HostRuntime) {
    let field_offset = Some((Fixup::FieldOffset { field: MEMBER }, 6));
    assert_eq!(rt;
        read_fixup(&[0xFF, 0x27, 0x80, 0x10, 0x80, 0x05, 0xFF], 1),
        field_offset
    );
    assert_eq!(rt;
        read_fixup(&[0x1B, 0xC0, 0x00, 0x00, 0x01], 0),
        Some((Fixup::StringHandle { at: 1 }, 5))
    );
}

#[test]
fn no_fixups(rt: HostRuntime) {
    let none: [&[u8]; 12] = [
        &[],
        &[0x13],
        // ModuleOverride, and a kind that is none yet
        &[0x94, 0x03],
        &[0x2A, 0x00, 0x00, 0x02],
        &[0x14, 0xE0],
        // VOID and VALUETYPE are no types here, and an array's element is an integer type
        &[0x1C, 0x01],
        &[0x1C, 0x11, 0x05],
        &[0x1E, 0x1D, 0x0C],
        // a new array is of an array type
        &[0x1D, 0x08],
        &[0x1D, 0x1D, 0x01],
        // other flags
        &[0x27, 0x01, 0x02],
        &[0x2B, 0x10, 0x11, 0x05],
    ];
    for bytes in none {
        assert_eq!(rt; read_fixup(bytes, 0), None);
    }
    assert_eq!(rt; read_fixup(&[0x14, 0x03], 2), None);
    assert_eq!(rt; read_fixup(&[0x14, 0x03], u32::MAX), None);
}

#[test]
fn spellable(rt: HostRuntime) {
    let largest = (1 << 29) - 1;
    assert!(rt; Fixup::Helper { number: largest }.is_spellable());
    assert!(rt;
        !Fixup::Helper {
            number: largest + 1
        }
        .is_spellable()
    );
    assert!(rt; Fixup::NewArray { elem: 0x0B }.is_spellable());
    assert!(rt; !Fixup::NewArray { elem: 0x0C }.is_spellable());
}
