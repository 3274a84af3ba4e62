//! What holds of the machine.

ghost use Rattle.std.specs.Prelude.{◌≡◌, ◌<◌, ◌≤◌, ◌+◌, ◌%◌, ◌^◌, ℕ, Bool, true, IsTrue, Some, List, [], ◌∷◌};
ghost use Rattle.a64_code.specs.declared.inst.Inst.{Inst};
ghost use Rattle.a64_code.specs.Words.{instruction};
ghost use Rattle.a64_meaning.specs.Access.{is_cell, load, plain_load};
ghost use Rattle.a64_meaning.specs.Effects.{act};
ghost use Rattle.a64_meaning.specs.Machine.{Bytes, Ground, Machine, at_segment, image_address};
ghost use Rattle.a64_meaning.specs.Step.{step};
ghost use Rattle.a64_meaning.specs.Walk.{HasCode, LeadsTo, walk};
ghost use Rattle.a64_meaning.specs.Whole.{HasBytes, HasWords, KeepsWords, Whole};

use a64_code::words_read_back;

/// The law of words: where the registers, SP and the program counter are below 2^64, and the flags below 16, they are so after a
/// step, whatever words the cells answer. Bytes of memory and of the image are below 256.
pub fn words_stay<H>()
    ensures words { (b : Bytes H) (g : Ground) → HasBytes b g → (m : Machine) → HasWords m → (h : H) → KeepsWords (step b g m h) }
{
    words_read_back();
}

/// The law of exits: where a step has loaded a cell, it goes on. So a step that ends at a helper, at a stub, by BadCode or by
/// BadAccess makes no load at a cell. That it leaves the machine and its memory as they were is in the form of `Goal`.
pub fn steps_are_whole<H>()
    ensures whole { (b : Bytes H) (g : Ground) (m : Machine) (h : H) → Whole (step b g m h) }
{}

/// The law of code: a step at a word of the image has the effect of the word's instruction.
pub fn code_is_run<H>()
    ensures runs { (b : Bytes H) (g : Ground) (m : Machine) (h : H) (rva word : ℕ) (inst : Inst) → m.pc ≡ image_address rva
        → rva % 4 ≡ 0 → rva < 2 ^ 32 → plain_load g 4 rva ≡ Some word → instruction word ≡ Some inst
        → step b g m h ≡ act b g inst m h }
{}

/// The law of straight code, for three pieces as a compiler writes them, where loads of cells answer by `answers`.
pub fn straight_code_runs<H>()
    // add w0, w0, w1; ret
    ensures adds { (b : Bytes H) (g : Ground) (answers : ℕ → ℕ → Bool) (m : Machine) (h : H) (rva : ℕ) → m.pc ≡ image_address rva
        → rva % 4 ≡ 0 → rva + 8 ≤ 2 ^ 32 → HasCode g rva (0x0B010000 ∷ 0xD65F03C0 ∷ [])
        → LeadsTo (λ rva n. IsTrue (answers rva n)) (λ n k. (n.x 0 ≡ (m.x 0 + m.x 1) % 2 ^ 32) × (n.pc ≡ m.x 30) × (n.sp ≡ m.sp) × (k ≡ h)) (walk b g 2 m h) }
    // ldr x12, [x11]; blr x12, where x11 is the address of a cell: it goes to the word that the cell answers.
    ensures calls { (b : Bytes H) (g : Ground) (answers : ℕ → ℕ → Bool) (m : Machine) (h : H) (rva cell : ℕ)
        → m.pc ≡ image_address rva → rva % 4 ≡ 0 → rva + 8 < 2 ^ 32 → HasCode g rva (0xF940016C ∷ 0xD63F0180 ∷ [])
        → m.x 11 ≡ image_address cell → cell < 2 ^ 32 → is_cell g.cells cell ≡ true
        → LeadsTo (λ rva n. IsTrue (answers rva n)) (λ n k. IsTrue (answers cell n.pc) × (n.x 30 ≡ image_address (rva + 8)) × (n.x 0 ≡ m.x 0) × (n.x 1 ≡ m.x 1)
        × (n.x 11 ≡ m.x 11) × (n.sp ≡ m.sp) × (k ≡ h)) (walk b g 2 m h) }
    // ldr w1, [x0, #8], where x0 is the address of an object of 12 bytes or more.
    ensures reads { (b : Bytes H) (g : Ground) (answers : ℕ → ℕ → Bool) (m : Machine) (h : H) (rva object : ℕ)
        → m.pc ≡ image_address rva → rva % 4 ≡ 0 → rva < 2 ^ 32 → HasCode g rva (0xB9400801 ∷ []) → m.x 0 ≡ at_segment object 0
        → 16 ≤ object → object < 2 ^ 32 → 12 ≤ b.size h object
        → LeadsTo (λ rva n. IsTrue (answers rva n)) (λ n k. (n.x 1 ≡ load 4 (b.byte h) (at_segment object 8)) × (n.pc ≡ (m.pc + 4) % 2 ^ 64)
        × (n.x 0 ≡ m.x 0) × (k ≡ h)) (walk b g 1 m h) }
{}
