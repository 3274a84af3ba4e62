//! What holds of the words and the table, whatever reads or writes them.

ghost use Rattle.std.specs.Prelude.{◌≡◌, ◌≢◌, ◌<◌, ◌^◌, ◌↔◌, ℕ, All, bit_and, slice_index};
ghost use Rattle.a64_code.specs.Table.{parts_of, table};
ghost use Rattle.a64_code.specs.Words.{HasNot, InRange, IsWord, held, instruction, mask, word_of};
ghost use Rattle.a64_code.specs.declared.inst.Inst.{Inst};

/// The law of [`crate::encode`] and [`crate::decode`]: they are inverse over the table.
pub fn words_read_back()
    // What is written is read back.
    ensures read_back { (inst : Inst) → InRange inst → instruction (word_of inst) ≡ Some inst }
    // What is read is in range, and its word is the one that was read.
    ensures written_back { (word : ℕ) (inst : Inst) → word < 2 ^ 32 → instruction word ≡ Some inst
        → IsWord inst word }
    // A word is outside exactly where it is that of no instruction.
    ensures outside { (word : ℕ) → word < 2 ^ 32
        → ((instruction word ≡ None) ↔ ((inst : Inst) → InRange inst → word_of inst ≢ word)) }
{}

/// The law of the rows: the bits that each fixes.
pub fn rows_fix_bits()
    // All bits that no field covers are those of the base.
    ensures fixed { (inst : Inst) → InRange inst → bit_and (word_of inst) (mask (parts_of inst).row.fields)
        ≡ slice_index (parts_of inst).row.bases (parts_of inst).base }
    // The others hold the values.
    ensures held { (inst : Inst) → InRange inst
        → held (word_of inst) (parts_of inst).row.fields ≡ (parts_of inst).values }
    // A word has 32 bits.
    ensures small { (inst : Inst) → InRange inst → word_of inst < 2 ^ 32 }
    // A word is outside exactly where no row has it.
    ensures outside { (word : ℕ) → (instruction word ≡ None) ↔ All (HasNot word) table }
{}
