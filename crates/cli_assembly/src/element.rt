//! The integer types that signatures name (ECMA-335 II.23.1.16).

ghost use Rattle.std.specs.Prelude.{◌≡◌};
ghost use Rattle.cli_assembly.specs.Elements.{element_number};

/// An integer type, by its element type.
#[derive(Clone, Copy, Debug, PartialEq, Eq)]
pub enum Elem {
    /// ELEMENT_TYPE_BOOLEAN.
    Boolean = 0x02,
    /// ELEMENT_TYPE_CHAR.
    Char = 0x03,
    /// ELEMENT_TYPE_I1.
    I1 = 0x04,
    /// ELEMENT_TYPE_U1.
    U1 = 0x05,
    /// ELEMENT_TYPE_I2.
    I2 = 0x06,
    /// ELEMENT_TYPE_U2.
    U2 = 0x07,
    /// ELEMENT_TYPE_I4.
    I4 = 0x08,
    /// ELEMENT_TYPE_U4.
    U4 = 0x09,
    /// ELEMENT_TYPE_I8.
    I8 = 0x0A,
    /// ELEMENT_TYPE_U8.
    U8 = 0x0B,
}

/// The integer types, in the order of their element types.
pub const ELEMS: [Elem; 10] = [
    Elem::Boolean,
    Elem::Char,
    Elem::I1,
    Elem::U1,
    Elem::I2,
    Elem::U2,
    Elem::I4,
    Elem::U4,
    Elem::I8,
    Elem::U8,
];

impl Elem {
    /// Its element type, from 02 (BOOLEAN) to 0B (U8).
    pub fn number(self) -> u8
        ensures { result ≡ element_number self }
    {
        self as u8
    }
}
