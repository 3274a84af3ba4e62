//! What the definitions say of one another.

ghost use Rattle.std.specs.Prelude.{◌≡◌, ◌≢◌, ℕ, List, Some, None};
ghost use Rattle.cil_decode.specs.declared.instr.Instr.{Instr};
ghost use Rattle.cil_decode.specs.declared.body.BodyRefusal.{BodyRefusal};
ghost use Rattle.cil_decode.specs.declared.body.BodyRefusal.TheVariants as refusals;
ghost use Rattle.cil_decode.specs.Bodies.{IsBody, IsRefused};
ghost use Rattle.type_world.specs.Profile.{instrs_of};

/// The law of codes: the instructions of a code are those that it is made of, and there are none where it can't be decoded.
pub fn codes_are_instructions()
    ensures decoded { (code : List ℕ) (list : List Instr) → IsBody code list → instrs_of code ≡ Some list }
    ensures whole { (code : List ℕ) (list : List Instr) → instrs_of code ≡ Some list → IsBody code list }
    ensures refused { (code : List ℕ) (e : BodyRefusal) → e ≢ refusals.NoMemory → IsRefused code e → instrs_of code ≡ None }
{}
