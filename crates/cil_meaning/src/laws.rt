//! What the definitions say of one another.

ghost use Rattle.std.specs.Prelude.{◌≡◌, ℕ, ℤ, List, [], length, true, Some};
ghost use Rattle.cil_decode.specs.declared.instr.Instr.{Instr};
ghost use Rattle.cil_decode.specs.declared.instr.Arg.{Arg};
ghost use Rattle.cil_decode.specs.declared.operation.Operation.{Operation};
ghost use Rattle.cil_meaning.specs.declared.kind.Kind.{Kind};
ghost use Rattle.type_world.specs.declared.identity.MethodId.{MethodId};
ghost use Rattle.type_world.specs.World.{World};
ghost use Rattle.type_world.specs.Profile.{Method, instrs_of};
ghost use Rattle.cil_meaning.specs.Typing.{Typing, flow_of, is_typing, typing_of};
ghost use Rattle.cil_meaning.specs.Step.{act};
ghost use Rattle.cil_meaning.specs.Soundness.{HasKinds, Holds, Sound};
ghost use Rattle.cil_meaning.specs.State.{IsOver, Run, Value, no_objects};
ghost use Rattle.cil_meaning.specs.Run.{Reaches, cil, start};
ghost use Rattle.cil_meaning.specs.Laws.{FirstUntypedIsFirst, RoundsFindTheLeast, RoundsFindTypings};
ghost use Rattle.cil_meaning.specs.Laws.{TypedCodeRuns, TypingsNarrow, UntypedIsFound};

/// The law of runs: a run is over within its bound, and whatever ending is reached from its start is its ending.
pub fn runs_end()
    ensures over { (world : World) (entry : MethodId) (numbers : List ℤ) (ticks : ℕ) → IsOver (cil world entry numbers ticks) }
    ensures reached { (world : World) (entry : MethodId) (numbers : List ℤ) (ticks : ℕ) (run : Run (Unit {0}) (List ℕ))
        → Reaches no_objects world (start no_objects world entry numbers [] ticks) run → IsOver run → cil world entry numbers ticks ≡ run }
{}

/// The law of typings: the typing of a method meets the rule of each instruction that is reached.
pub fn typings_meet_their_rules()
    ensures { (world : World) (method : Method) (instrs : List Instr) (typing : Typing)
        → instrs_of method.code ≡ Some instrs → typing_of world method ≡ Some typing
        → is_typing world method (length method.code) instrs typing ≡ true }
{}

/// The law of the least typing: the typing that the rounds come to has exactly the offsets that are reached, and its stacks fit those
/// of every typing.
pub fn rounds_find_the_least()
    ensures { RoundsFindTheLeast }
{}

/// The law of code without a typing: there is an instruction up to which there is none, and a typing of a part of the code is one of each
/// shorter part. So `NoTyping` has an offset, and a search by halves finds it. Up to that offset there is no typing, and there is one up
/// to each earlier instruction.
pub fn untyped_code_has_a_first_offset()
    ensures found { UntypedIsFound }
    ensures narrow { TypingsNarrow }
    ensures first { FirstUntypedIsFirst }
{}

/// The law of typed code: where the values are those of the typing, what an instruction asks is what its rule says of it. So
/// one that meets its rule never fails.
pub fn typed_code_is_sound()
    ensures { (world : World) (m : Method) (arguments locals : List (Value (Unit {0}))) (heap : List ℕ) (next : ℕ)
        → Holds m.shape.arguments arguments → Holds m.locals locals
        → (operation : Operation) (arg : Arg) (kinds : List Kind) (stack : List (Value (Unit {0}))) → HasKinds kinds stack
        → Sound world m next (flow_of world m next operation arg kinds) (act no_objects world m arguments locals heap operation arg stack) }
{}

/// The law of typed runs: from an entry with the numbers that it takes, no run meets an operand of the wrong kind, or an offset without
/// an instruction.
pub fn typed_code_runs()
    ensures { TypedCodeRuns }
{}

/// The law of the rounds: they come to a typing wherever there is one, also where the instructions after an offset end the run. So `None`
/// is exact.
pub fn rounds_find_typings()
    ensures { RoundsFindTypings }
{}
