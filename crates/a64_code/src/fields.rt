//! The fields of a word.

ghost use Rattle.std.specs.Prelude.{◌≡◌, ◌<◌, ◌≤◌, ◌+◌, ◌*◌, ◌/◌, ◌%◌, ◌^◌, nat_lt};

/// A field.
#[derive(Clone, Copy)]
pub struct Field {
    /// The place of its lowest bit.
    pub place: u32,
    /// How many bits it has.
    pub width: u32,
}

impl Field {
    /// The number that a word has in the field.
    pub fn number(self, word: u32) -> u32
        requires within { self.width + self.place ≤ 32 }
        requires part { self.width < 32 }
        requires below { self.place < 32 }
        ensures { result ≡ word / 2 ^ self.place % 2 ^ self.width }
    {
        (word >> self.place) & ((1 << self.width) - 1)
    }

    /// The register that a word has in the field.
    pub fn register(self, word: u32) -> u8
        requires five { self.width ≡ 5 }
        requires below { self.place < 27 }
        ensures { result ≡ word / 2 ^ self.place % 2 ^ self.width }
    {
        self.number(word) as u8
    }

    /// Whether a value fits the field.
    pub fn fits(self, value: u32) -> bool
        requires { self.width < 32 }
        ensures { result ≡ nat_lt value (2 ^ self.width) }
    {
        value < 1 << self.width
    }

    /// A value at its place.
    pub fn put(self, value: u32) -> u32
        requires fits { value < 2 ^ self.width }
        requires within { self.width + self.place ≤ 32 }
        requires below { self.place < 32 }
        ensures { result ≡ value * 2 ^ self.place }
    {
        value << self.place
    }
}

/// The destination.
pub const RD: Field = Field { place: 0, width: 5 };

/// The register that is stored, loaded or compared.
pub const RT: Field = Field { place: 0, width: 5 };

/// The first operand, or the base of an address.
pub const RN: Field = Field { place: 5, width: 5 };

/// The second operand, or the offset of an address.
pub const RM: Field = Field {
    place: 16,
    width: 5,
};

/// The addend.
pub const RA: Field = Field {
    place: 10,
    width: 5,
};

/// The second register of a pair.
pub const RT2: Field = Field {
    place: 10,
    width: 5,
};

/// An unsigned number of 12 bits.
pub const IMM12: Field = Field {
    place: 10,
    width: 12,
};

/// Whether a 12-bit number is shifted by 12.
pub const SH: Field = Field {
    place: 22,
    width: 1,
};

/// The amount of a shift.
pub const IMM6: Field = Field {
    place: 10,
    width: 6,
};

/// The kind of a shift: LSL, LSR, ASR, ROR.
pub const SHIFT: Field = Field {
    place: 22,
    width: 2,
};

/// The last bit of a bit field.
pub const IMMS: Field = Field {
    place: 10,
    width: 6,
};

/// The rotation of a bit field.
pub const IMMR: Field = Field {
    place: 16,
    width: 6,
};

/// A number of 16 bits.
pub const IMM16: Field = Field {
    place: 5,
    width: 16,
};

/// The place of a 16-bit number, in units of 16 bits.
pub const HW: Field = Field {
    place: 21,
    width: 2,
};

/// Whether the offset of an address is scaled by the size of the access.
pub const S: Field = Field {
    place: 12,
    width: 1,
};

/// The signed offset of a pair, in units of 8 bytes.
pub const IMM7: Field = Field {
    place: 15,
    width: 7,
};

/// The upper part of an address relative to the PC.
pub const IMMHI: Field = Field {
    place: 5,
    width: 19,
};

/// The lower part of an address relative to the PC.
pub const IMMLO: Field = Field {
    place: 29,
    width: 2,
};

/// The signed offset of a branch, in words.
pub const IMM26: Field = Field {
    place: 0,
    width: 26,
};

/// The condition of a branch.
pub const BRANCH_COND: Field = Field { place: 0, width: 4 };

/// The signed offset of a conditional branch, in words.
pub const IMM19: Field = Field {
    place: 5,
    width: 19,
};

/// The condition of a select.
pub const SELECT_COND: Field = Field {
    place: 12,
    width: 4,
};

/// The group of a word among all encodings.
pub const GROUP: Field = Field {
    place: 24,
    width: 5,
};
