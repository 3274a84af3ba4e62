//! What holds of fixups and their spellings, whatever reads or writes them.

ghost use Rattle.std.specs.Prelude.{◌≤◌, ◌+◌, ◌++◌, ℕ, List, length};
ghost use Rattle.rtr_bytes.specs.Spelling.{BeginsAt, NoneBeginsAnother};
ghost use Rattle.fixup_sigs.specs.Fixup.{IsFixup};
ghost use Rattle.fixup_sigs.specs.Laws.{ReadFixupIsSpellable, WrittenFixupIsRead};
ghost use Rattle.fixup_sigs.specs.Shortest.{IsSpellable, fixup_bytes};
ghost use Rattle.fixup_sigs.specs.declared.fixup.Fixup.{Fixup};

use rtr_bytes::{no_compressed_begins_another, shortest_compressed};

/// The law of fixups: no spelling of one begins another. So at a place there is one at most, and what was written is read
/// again, whatever follows it. Like each law here the call does nothing when it runs.
pub fn no_fixup_begins_another()
    ensures { NoneBeginsAnother IsFixup }
{
    no_compressed_begins_another();
}

/// The law of the spelling that [`crate::write_fixup`] writes.
pub fn shortest_fixup()
    ensures spells { (fixup : Fixup) → IsSpellable fixup → IsFixup (fixup_bytes fixup) fixup }
    // No other spelling of the fixup is shorter.
    ensures shortest { (bytes : List ℕ) (fixup : Fixup) → IsFixup bytes fixup
        → length (fixup_bytes fixup) ≤ length bytes }
    // It has ten bytes at most.
    ensures most { (fixup : Fixup) → length (fixup_bytes fixup) ≤ 10 }
    // It is read again after whatever bytes, and whatever follows.
    ensures read_back { (fixup : Fixup) (before rest : List ℕ) → IsSpellable fixup
        → BeginsAt IsFixup (before ++ fixup_bytes fixup ++ rest) (length before) fixup
        (length before + length (fixup_bytes fixup)) }
{
    shortest_compressed();
}

/// The law of what is written: at a place where the bytes begin with the shortest spelling of a fixup, that fixup is read.
pub fn written_fixup_is_read()
    ensures { WrittenFixupIsRead }
{
    shortest_compressed();
}

/// The law of what is read: a fixup that begins at a place of bytes can be written.
pub fn read_fixup_is_spellable()
    ensures { ReadFixupIsSpellable }
{}
