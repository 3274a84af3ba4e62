//! Text that is made whole before it is written.

ghost use Rattle.std.specs.Prelude.{◌≡◌, [], ◌∷◌, ◌++◌, OnOk, decimal};
ghost use Rattle.hex.specs.Hex.{encode_lower};
ghost use Rattle.rtr_outside.specs.Text.{hex4, hex8, printed_name};

use itoa::Buffer;
use rtr_bytes::NoMemory;
use std::alloc::Global;
use std::marker::Model;

/// A text in the making, which contracts see as its bytes. Each method that adds something answers `NoMemory`
/// where memory was refused; a part of it may then have been added.
#[derive(Drop)]
pub struct Text {
    bytes: Vec<u8>,
}

impl Model for Text {
    ghost use Rattle.std.specs.Prelude.{ℕ, List};

    ghost Value = { List ℕ };

    ghost view = { λ t. t.bytes.items };
}

impl Text {
    /// The empty text.
    pub fn new(alloc: Global) -> Text
        ensures { result ≡ [] }
    {
        Text {
            bytes: Vec::new(alloc),
        }
    }

    /// The bytes of the text.
    pub fn as_slice(&self) -> &[u8]
        ensures { result.now ≡ self.now }
    {
        self.bytes.as_slice()
    }

    /// Adds a byte.
    pub fn byte(&mut self, byte: u8) -> Result<(), NoMemory>
        ensures { OnOk result (self.new ≡ self.old ++ byte ∷ []) }
    {
        self.bytes.push(byte)?;
        Ok(())
    }

    /// Adds bytes as they are.
    pub fn bytes(&mut self, bytes: &[u8]) -> Result<(), NoMemory>
        ensures { OnOk result (self.new ≡ self.old ++ bytes.now) }
    {
        self.bytes.extend_from_slice(bytes)?;
        Ok(())
    }

    /// Adds words as they are.
    pub fn words(&mut self, words: &str) -> Result<(), NoMemory>
        ensures { OnOk result (self.new ≡ self.old ++ words.now) }
    {
        self.bytes(words.as_bytes())
    }

    /// Adds words, and bytes after them.
    fn words_and(&mut self, words: &str, bytes: &[u8]) -> Result<(), NoMemory>
        ensures { OnOk result (self.new ≡ self.old ++ words.now ++ bytes.now) }
    {
        self.words(words)?;
        self.bytes(bytes)
    }

    /// Adds words, and a number in decimal.
    pub fn decimal(&mut self, words: &str, number: u64) -> Result<(), NoMemory>
        ensures { OnOk result (self.new ≡ self.old ++ words.now ++ decimal number) }
    {
        self.words_and(words, Buffer::new().format(number).as_bytes())
    }

    /// Adds words, and a number in four lower-case digits of hexadecimal.
    pub fn hex16(&mut self, words: &str, number: u16) -> Result<(), NoMemory>
        ensures { OnOk result (self.new ≡ self.old ++ words.now ++ hex4 number) }
    {
        let mut digits = [0; 4];
        let _ = hex::encode_to_slice(number.to_be_bytes(), &mut digits);
        self.words_and(words, &digits)
    }

    /// Adds words, and a number in eight lower-case digits of hexadecimal.
    pub fn hex32(&mut self, words: &str, number: u32) -> Result<(), NoMemory>
        ensures { OnOk result (self.new ≡ self.old ++ words.now ++ hex8 number) }
    {
        let mut digits = [0; 8];
        let _ = hex::encode_to_slice(number.to_be_bytes(), &mut digits);
        self.words_and(words, &digits)
    }

    /// Adds words, and bytes in lower-case hexadecimal.
    pub fn hex(&mut self, alloc: Global, words: &str, bytes: &[u8]) -> Result<(), NoMemory>
        ensures { OnOk result (self.new ≡ self.old ++ words.now ++ encode_lower bytes.now) }
    {
        let digits = hex::encode(alloc, bytes)?;
        self.words_and(words, digits.as_bytes())
    }

    /// Adds words, and a name with a question mark for each control character: each byte below 0x20, and 0x7F.
    pub fn name(&mut self, words: &str, name: &str) -> Result<(), NoMemory>
        ensures { OnOk result (self.new ≡ self.old ++ words.now ++ printed_name name.now) }
    {
        self.words(words)?;
        for byte in name.as_bytes() {
            let control = *byte < 0x20 || *byte == 0x7F;
            self.byte(if control { b'?' } else { *byte })?;
        }
        Ok(())
    }
}
