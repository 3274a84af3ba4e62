//! The rows: which bits of a word are fixed, and the bases that they are one of.

ghost use Rattle.std.specs.Prelude.{◌≡◌, ◌<◌, ◌≤◌, ◌==◌, length, position, bit_and, slice_index, nat_le, nat_lt, IsTrue};
ghost use Rattle.std.specs.List.{list_all};

/// A row.
#[derive(Clone, Copy)]
pub struct Row {
    /// The bits that no field covers.
    pub mask: u32,
    /// What those bits may be.
    pub bases: &'static [u32],
}

impl Row {
    /// The place of the base that a word has, and `None` where it has none of them.
    pub fn base_of(self, word: u32) -> Option<u8>
        requires { length self.bases.now ≤ 256 }
        ensures { result ≡ position (λ base. base == bit_and word self.mask) self.bases.now }
    {
        let fixed = word & self.mask;
        for (place, base) in self.bases.iter().enumerate() {
            if *base == fixed {
                return Some(place as u8);
            }
        }
        None
    }

    /// Whether there is a base at a place.
    pub fn has(self, place: u8) -> bool
        ensures { result ≡ nat_lt place (length self.bases.now) }
    {
        (place as usize) < self.bases.len()
    }

    /// The base at a place.
    pub fn base(self, place: u8) -> u32
        requires within { place < length self.bases.now }
        requires fixed { IsTrue (list_all (λ base. nat_le base self.mask) self.bases.now) }
        ensures value { result ≡ slice_index self.bases.now place }
        ensures masked { result ≤ self.mask }
    {
        self.bases[place as usize]
    }
}

/// ADD w, ADD x, ADDS w, ADDS x.
pub const ADD_IMMEDIATE: Row = Row {
    mask: 0xFF80_0000,
    bases: &[0x1100_0000, 0x9100_0000, 0x3100_0000, 0xB100_0000],
};

/// SUB w, SUB x, SUBS w, SUBS x.
pub const SUB_IMMEDIATE: Row = Row {
    mask: 0xFF80_0000,
    bases: &[0x5100_0000, 0xD100_0000, 0x7100_0000, 0xF100_0000],
};

/// ADD w, ADD x, ADDS w, ADDS x.
pub const ADD_REGISTER: Row = Row {
    mask: 0xFF20_0000,
    bases: &[0x0B00_0000, 0x8B00_0000, 0x2B00_0000, 0xAB00_0000],
};

/// SUB w, SUB x, SUBS w, SUBS x.
pub const SUB_REGISTER: Row = Row {
    mask: 0xFF20_0000,
    bases: &[0x4B00_0000, 0xCB00_0000, 0x6B00_0000, 0xEB00_0000],
};

/// AND w, AND x, ORR w, ORR x, EOR w, EOR x.
pub const LOGICAL_REGISTER: Row = Row {
    mask: 0xFF20_0000,
    bases: &[
        0x0A00_0000,
        0x8A00_0000,
        0x2A00_0000,
        0xAA00_0000,
        0x4A00_0000,
        0xCA00_0000,
    ],
};

/// ORN w, ORN x.
pub const OR_NOT_REGISTER: Row = Row {
    mask: 0xFF20_0000,
    bases: &[0x2A20_0000, 0xAA20_0000],
};

/// MADD w, MADD x, MSUB w, MSUB x.
pub const MULTIPLY_ADD: Row = Row {
    mask: 0xFFE0_8000,
    bases: &[0x1B00_0000, 0x9B00_0000, 0x1B00_8000, 0x9B00_8000],
};

/// SMULL, UMULL.
pub const MULTIPLY_LONG: Row = Row {
    mask: 0xFFE0_FC00,
    bases: &[0x9B20_7C00, 0x9BA0_7C00],
};

/// SMULH, UMULH.
pub const MULTIPLY_HIGH: Row = Row {
    mask: 0xFFE0_FC00,
    bases: &[0x9B40_7C00, 0x9BC0_7C00],
};

/// SDIV w, SDIV x, UDIV w, UDIV x.
pub const DIVIDE: Row = Row {
    mask: 0xFFE0_FC00,
    bases: &[0x1AC0_0C00, 0x9AC0_0C00, 0x1AC0_0800, 0x9AC0_0800],
};

/// LSLV w, LSLV x, LSRV w, LSRV x, ASRV w, ASRV x.
pub const SHIFT_VARIABLE: Row = Row {
    mask: 0xFFE0_FC00,
    bases: &[
        0x1AC0_2000,
        0x9AC0_2000,
        0x1AC0_2400,
        0x9AC0_2400,
        0x1AC0_2800,
        0x9AC0_2800,
    ],
};

/// SBFM w, SBFM x, UBFM w, UBFM x.
pub const BITFIELD: Row = Row {
    mask: 0xFFC0_0000,
    bases: &[0x1300_0000, 0x9340_0000, 0x5300_0000, 0xD340_0000],
};

/// MOVN w, MOVN x, MOVZ w, MOVZ x, MOVK w, MOVK x.
pub const MOVE_WIDE: Row = Row {
    mask: 0xFF80_0000,
    bases: &[
        0x1280_0000,
        0x9280_0000,
        0x5280_0000,
        0xD280_0000,
        0x7280_0000,
        0xF280_0000,
    ],
};

/// STRB, STRH, STR w, STR x.
pub const STORE_IMMEDIATE: Row = Row {
    mask: 0xFFC0_0000,
    bases: &[0x3900_0000, 0x7900_0000, 0xB900_0000, 0xF900_0000],
};

/// LDRB, LDRH, LDR w, LDR x.
pub const LOAD_IMMEDIATE: Row = Row {
    mask: 0xFFC0_0000,
    bases: &[0x3940_0000, 0x7940_0000, 0xB940_0000, 0xF940_0000],
};

/// LDRSB x, LDRSH x, LDRSW.
pub const LOAD_SIGNED_IMMEDIATE_64: Row = Row {
    mask: 0xFFC0_0000,
    bases: &[0x3980_0000, 0x7980_0000, 0xB980_0000],
};

/// LDRSB w, LDRSH w.
pub const LOAD_SIGNED_IMMEDIATE_32: Row = Row {
    mask: 0xFFC0_0000,
    bases: &[0x39C0_0000, 0x79C0_0000],
};

/// STRB, STRH, STR w, STR x.
pub const STORE_REGISTER: Row = Row {
    mask: 0xFFE0_EC00,
    bases: &[0x3820_6800, 0x7820_6800, 0xB820_6800, 0xF820_6800],
};

/// LDRB, LDRH, LDR w, LDR x.
pub const LOAD_REGISTER: Row = Row {
    mask: 0xFFE0_EC00,
    bases: &[0x3860_6800, 0x7860_6800, 0xB860_6800, 0xF860_6800],
};

/// LDRSB x, LDRSH x, LDRSW, LDRSB w, LDRSH w.
pub const LOAD_SIGNED_REGISTER: Row = Row {
    mask: 0xFFE0_EC00,
    bases: &[
        0x38A0_6800,
        0x78A0_6800,
        0xB8A0_6800,
        0x38E0_6800,
        0x78E0_6800,
    ],
};

/// STP x pre-index, LDP x post-index.
pub const PAIR: Row = Row {
    mask: 0xFFC0_0000,
    bases: &[0xA980_0000, 0xA8C0_0000],
};

/// ADR, ADRP.
pub const PC_RELATIVE: Row = Row {
    mask: 0x9F00_0000,
    bases: &[0x1000_0000, 0x9000_0000],
};

/// B, BL.
pub const BRANCH: Row = Row {
    mask: 0xFC00_0000,
    bases: &[0x1400_0000, 0x9400_0000],
};

/// B.cond.
pub const BRANCH_CONDITIONAL: Row = Row {
    mask: 0xFF00_0010,
    bases: &[0x5400_0000],
};

/// CBZ w, CBZ x, CBNZ w, CBNZ x.
pub const COMPARE_AND_BRANCH: Row = Row {
    mask: 0xFF00_0000,
    bases: &[0x3400_0000, 0xB400_0000, 0x3500_0000, 0xB500_0000],
};

/// BR, BLR, RET.
pub const BRANCH_REGISTER: Row = Row {
    mask: 0xFFFF_FC1F,
    bases: &[0xD61F_0000, 0xD63F_0000, 0xD65F_0000],
};

/// CSEL w, CSEL x, CSINC w, CSINC x.
pub const CONDITIONAL_SELECT: Row = Row {
    mask: 0xFFE0_0C00,
    bases: &[0x1A80_0000, 0x9A80_0000, 0x1A80_0400, 0x9A80_0400],
};
