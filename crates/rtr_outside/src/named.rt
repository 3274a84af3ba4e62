//! Files in memory, by their names.

ghost use Rattle.std.specs.Prelude.{◌≡◌, position, OnOk, OnErr};
ghost use Rattle.std.specs.Option.{option_copied};
ghost use Rattle.rtr_outside.specs.Named.{bytes_of, with_file, file_map, is_named};

use rtr_bytes::NoMemory;
use std::alloc::Global;
use std::marker::Model;

/// Names and their bytes: contracts see them as the finite map from names to bytes. Of two entries of one
/// name the first counts.
#[derive(Drop)]
pub(crate) struct NamedFiles {
    entries: Vec<(String, Vec<u8>)>,
}

impl Model for NamedFiles {
    ghost use Rattle.rtr_outside.specs.Named.{FileMap, file_map_code, file_map};

    ghost Value = { FileMap };

    ghost coded = { file_map_code };

    ghost view = { λ f. file_map f.entries.items };
}

impl NamedFiles {
    /// The files of these names. It takes no memory.
    pub(crate) fn from_vec(entries: Vec<(String, Vec<u8>)>) -> Self
        ensures { result ≡ file_map entries.items }
    {
        NamedFiles { entries }
    }

    /// The bytes of a name. `None` exactly where there is no such name.
    pub(crate) fn get(&self, name: &str) -> Option<&[u8]>
        ensures { option_copied result ≡ bytes_of self.now name.now }
    {
        let at = place_of(&self.entries, name)?;
        Some(self.entries[at].1.as_slice())
    }

    /// Gives a name these bytes.
    pub(crate) fn set(&mut self, alloc: Global, name: &str, bytes: &[u8]) -> Result<(), NoMemory>
        ensures ok { OnOk result (self.new ≡ with_file self.old name.now bytes.now) }
        ensures err { OnErr result (self.new ≡ self.old) }
    {
        let bytes = Vec::from_slice(alloc, bytes)?;
        match place_of(&self.entries, name) {
            Some(at) => self.entries[at].1 = bytes,
            None => self.entries.push((String::from_str(alloc, name)?, bytes))?,
        }
        Ok(())
    }
}

/// The place of the first entry of a name.
fn place_of(entries: &[(String, Vec<u8>)], name: &str) -> Option<usize>
    ensures { result ≡ position (is_named name.now) entries.now }
{
    entries.iter().position(|entry| name == entry.0.as_str())
}
