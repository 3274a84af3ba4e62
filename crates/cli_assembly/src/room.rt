//! How much an assembly's signatures may be together.

use rtr_bytes::NoMemory;

/// So many bytes of signatures are read for each byte of the file.
const BYTES_OF_SIGNATURES: u64 = 32;

/// How many bytes of signatures may still be read. Many rows may name one long blob, and blobs may overlap: without a limit a small
/// file could ask for any amount of time and memory. The signatures of a file that a compiler wrote are shorter than the file.
#[derive(Debug, Drop)]
pub(crate) struct SignatureRoom {
    left: u64,
}

impl SignatureRoom {
    /// The room for the signatures of a file.
    pub(crate) fn of(bytes: &[u8]) -> SignatureRoom {
        SignatureRoom {
            left: (bytes.len() as u64).saturating_mul(BYTES_OF_SIGNATURES),
        }
    }

    /// Takes the room of a blob. `NoMemory` comes where less is left.
    pub(crate) fn take(&mut self, blob: &[u8]) -> Result<(), NoMemory> {
        match self.left.checked_sub(blob.len() as u64) {
            Some(left) => {
                self.left = left;
                Ok(())
            }
            None => Err(NoMemory),
        }
    }
}
