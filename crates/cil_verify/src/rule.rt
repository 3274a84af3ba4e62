//! The rule of each instruction: what it asks of the stack, and what it leaves.

ghost use Rattle.std.specs.Prelude.{◌≡◌, ◌<◌, ◌-◌, ◌&&◌, [], Some, None, slice_get, drop, length, false, get_or, nat_lt, if◌then◌else◌};
ghost use Rattle.std.specs.Option.{option_map};
ghost use Rattle.cil_decode.specs.declared.instr.Arg.{Arg as Argument};
ghost use Rattle.cil_meaning.specs.declared.kind.Kind.{Kind as Typed};
ghost use Rattle.cil_meaning.specs.declared.kind.Kind.TheVariants as kinds;
ghost use Rattle.type_world.specs.declared.place.Place.{Place as Held};
ghost use Rattle.cil_meaning.specs.Arithmetic.{is_wide};
ghost use Rattle.type_world.specs.Loading.{world_of};
ghost use Rattle.cil_meaning.specs.Typing.{kind_fits, kind_of, last_first, under_arguments};
ghost use Rattle.cil_verify.specs.Flows.{as_flow, is_control, is_of_values};
ghost use Rattle.cil_verify.specs.Rules.{branches_by, calls_by, compares_by, counts_by, converts_by, duplicates_by, joins_by, jumps_by};
ghost use Rattle.cil_verify.specs.Rules.{keeps_integer_by, pops_by, pops_into_by, pops_then_branches_by, pushes_by, returns_by, rule_of};
ghost use Rattle.cil_verify.specs.Rules.{switches_by, tests_by};

use crate::flow::{Flow, Leaves, goes_on};
use crate::stack::{can_compare, fits_place, is_integer, kind_of, same_width};
use cil_decode::{Arg, Comparison, IntegerType, Operation};
use cil_meaning::Kind;
use type_world::{MethodId, Place, ProfileMethod, World};

/// The place of an argument or a local, by its index.
fn place_at(places: &[Place], index: u16) -> Option<Place>
    ensures { result ≡ slice_get places.now index }
{
    places.get(index as usize).copied()
}

/// The type of the value that an argument or a local gives.
fn kind_at(places: &[Place], index: u16) -> Option<Kind>
    ensures { result ≡ option_map kind_of (slice_get places.now index) }
{
    match place_at(places, index) {
        Some(place) => Some(kind_of(place)),
        None => None,
    }
}

/// What the rule of an instruction depends on beside the instruction.
#[derive(Clone, Copy)]
pub(crate) struct Rule<'a> {
    /// The world of the method.
    pub(crate) world: &'a World,
    /// The method.
    pub(crate) method: &'a ProfileMethod<'a>,
    /// The offset after the instruction.
    pub(crate) next: u32,
}

impl<'a> Rule<'a> {
    /// Pushes a type, where there is one.
    fn pushes(&self, kind: Option<Kind>, stack: &[Kind]) -> Flow
        ensures { (arg : Argument) → as_flow result arg stack.now ≡ pushes_by self.now kind stack.now }
    {
        match kind {
            Some(_) => goes_on(self.next, 0, kind),
            None => Flow::Untyped,
        }
    }

    /// Pops a value that fits a place, where there is one.
    fn pops_into(&self, place: Option<Place>, stack: &[Kind]) -> Flow
        ensures { (arg : Argument) → as_flow result arg stack.now ≡ pops_into_by self.now place stack.now }
    {
        match (place, stack) {
            (Some(place), [kind, ..]) => {
                if fits_place(self.world, *kind, place) {
                    goes_on(self.next, 1, None)
                } else {
                    Flow::Untyped
                }
            }
            _ => Flow::Untyped,
        }
    }

    /// Pushes the top again.
    fn duplicates(&self, stack: &[Kind]) -> Flow
        ensures { (arg : Argument) → as_flow result arg stack.now ≡ duplicates_by self.now stack.now }
    {
        match stack {
            [] => Flow::Untyped,
            [kind, ..] => goes_on(self.next, 0, Some(*kind)),
        }
    }

    /// Pops the top.
    fn pops(&self, stack: &[Kind]) -> Flow
        ensures { (arg : Argument) → as_flow result arg stack.now ≡ pops_by self.now stack.now }
    {
        match stack {
            [] => Flow::Untyped,
            [_, ..] => goes_on(self.next, 1, None),
        }
    }

    /// Two integers of one width, which leave one.
    fn joins(&self, stack: &[Kind]) -> Flow
        ensures { (arg : Argument) → as_flow result arg stack.now ≡ joins_by self.now stack.now }
    {
        match stack {
            [y, x, ..] => {
                if same_width(*x, *y) {
                    goes_on(self.next, 1, None)
                } else {
                    Flow::Untyped
                }
            }
            _ => Flow::Untyped,
        }
    }

    /// An integer, and the count of a shift.
    fn shifts(&self, stack: &[Kind]) -> Flow
        ensures { (arg : Argument) → as_flow result arg stack.now ≡ counts_by self.now stack.now }
    {
        match stack {
            [count, x, ..] => {
                if is_integer(*x) && same_width(*count, Kind::I4) {
                    goes_on(self.next, 1, None)
                } else {
                    Flow::Untyped
                }
            }
            _ => Flow::Untyped,
        }
    }

    /// An integer, which leaves one of its width.
    fn keeps_integer(&self, stack: &[Kind]) -> Flow
        ensures { (arg : Argument) → as_flow result arg stack.now ≡ keeps_integer_by self.now stack.now }
    {
        match stack {
            [] => Flow::Untyped,
            [kind, ..] => {
                if is_integer(*kind) {
                    goes_on(self.next, 0, None)
                } else {
                    Flow::Untyped
                }
            }
        }
    }

    /// Two values that a comparison takes, which leave an integer of four bytes.
    fn compares(&self, comparison: Comparison, stack: &[Kind]) -> Flow
        ensures { (arg : Argument) → as_flow result arg stack.now ≡ compares_by self.now comparison stack.now }
    {
        match stack {
            [y, x, ..] => {
                if can_compare(false, comparison, *x, *y) {
                    goes_on(self.next, 2, Some(Kind::I4))
                } else {
                    Flow::Untyped
                }
            }
            _ => Flow::Untyped,
        }
    }

    /// An integer, which leaves one of the width of a type.
    fn converts(&self, to: IntegerType, stack: &[Kind]) -> Flow
        ensures { (arg : Argument) → as_flow result arg stack.now ≡ converts_by self.now to stack.now }
    {
        match stack {
            [] => Flow::Untyped,
            [kind, ..] => {
                if is_integer(*kind) {
                    goes_on(self.next, 1, Some(kind_of_type(to)))
                } else {
                    Flow::Untyped
                }
            }
        }
    }

    /// Arithmetic, comparisons and conversions. No method in the profile has the operations that are left.
    #[tactic(auto, unfolding(cil_meaning::specs::Typing::flow_of))]
    fn of_numbers(&self, operation: Operation, stack: &[Kind]) -> Flow
        requires values { is_of_values operation ≡ false }
        requires control { is_control operation ≡ false }
        ensures { (arg : Argument) → as_flow result arg stack.now ≡ rule_of self.now operation arg stack.now }
    {
        match operation {
            Operation::Binary(_) | Operation::Checked(_) => self.joins(stack),
            Operation::Shift(_) => self.shifts(stack),
            Operation::Negate | Operation::Not => self.keeps_integer(stack),
            Operation::Compare(comparison) => self.compares(comparison, stack),
            Operation::Convert(to) => self.converts(to, stack),
            _ => Flow::Untyped,
        }
    }

    /// Arguments, locals, constants and the stack itself; else arithmetic.
    #[tactic(auto, unfolding(cil_meaning::specs::Typing::flow_of))]
    fn of_values(&self, operation: Operation, stack: &[Kind]) -> Flow
        requires { is_control operation ≡ false }
        ensures { (arg : Argument) → as_flow result arg stack.now ≡ rule_of self.now operation arg stack.now }
    {
        let arguments = self.method.shape.arguments.as_slice();
        let locals = self.method.locals;
        match operation {
            Operation::Nop => goes_on(self.next, 0, None),
            Operation::LoadArgument(i) => self.pushes(kind_at(arguments, i), stack),
            Operation::StoreArgument(i) => self.pops_into(place_at(arguments, i), stack),
            Operation::LoadLocal(i) => self.pushes(kind_at(locals, i), stack),
            Operation::StoreLocal(i) => self.pops_into(place_at(locals, i), stack),
            Operation::LoadNull => goes_on(self.next, 0, Some(Kind::Null)),
            Operation::LoadInt32(_) => goes_on(self.next, 0, Some(Kind::I4)),
            Operation::LoadInt64(_) => goes_on(self.next, 0, Some(Kind::I8)),
            Operation::Duplicate => self.duplicates(stack),
            Operation::Pop => self.pops(stack),
            _ => self.of_numbers(operation, stack),
        }
    }

    /// The target of a jump.
    fn jumps(&self, arg: &Arg, stack: &[Kind]) -> Flow
        ensures { as_flow result arg.now stack.now ≡ jumps_by self.now arg.now stack.now }
    {
        match arg {
            Arg::Target(_) => Flow::Flows(Leaves {
                popped: 0,
                pushed: None,
                next: None,
                targets: true,
            }),
            _ => Flow::Untyped,
        }
    }

    /// The next instruction and the target of a branch, with a stack of which some types are popped.
    fn branches(&self, popped: usize, arg: &Arg, stack: &[Kind]) -> Flow
        ensures { as_flow result arg.now stack.now ≡ branches_by self.now arg.now (drop popped stack.now) }
    {
        match arg {
            Arg::Target(_) => Flow::Flows(Leaves {
                popped,
                pushed: None,
                next: Some(self.next),
                targets: true,
            }),
            _ => Flow::Untyped,
        }
    }

    /// A value that is tested, and a branch.
    fn tests(&self, arg: &Arg, stack: &[Kind]) -> Flow
        ensures { as_flow result arg.now stack.now ≡ tests_by self.now arg.now stack.now }
    {
        match stack {
            [] => Flow::Untyped,
            [_, ..] => self.branches(1, arg, stack),
        }
    }

    /// Two values that a comparison takes, and a branch.
    fn compares_and_branches(&self, comparison: Comparison, arg: &Arg, stack: &[Kind]) -> Flow
        ensures { as_flow result arg.now stack.now ≡ pops_then_branches_by self.now comparison arg.now stack.now }
    {
        match stack {
            [y, x, ..] => {
                if can_compare(true, comparison, *x, *y) {
                    self.branches(2, arg, stack)
                } else {
                    Flow::Untyped
                }
            }
            _ => Flow::Untyped,
        }
    }

    /// An integer of four bytes; the next instruction and each target follow.
    fn switches(&self, arg: &Arg, stack: &[Kind]) -> Flow
        ensures { as_flow result arg.now stack.now ≡ switches_by self.now arg.now stack.now }
    {
        match (stack, arg) {
            ([kind, ..], Arg::Targets(_)) => {
                if same_width(*kind, Kind::I4) {
                    Flow::Flows(Leaves {
                        popped: 1,
                        pushed: None,
                        next: Some(self.next),
                        targets: true,
                    })
                } else {
                    Flow::Untyped
                }
            }
            _ => Flow::Untyped,
        }
    }

    /// Exactly the result of the method, or nothing (ECMA-335 III.3.57).
    fn returns(&self, stack: &[Kind]) -> Flow
        ensures { (arg : Argument) → as_flow result arg stack.now ≡ returns_by self.now stack.now }
    {
        match (self.method.shape.result, stack) {
            (None, []) => Flow::Stops,
            (Some(place), [kind]) => {
                if fits_place(self.world, *kind, place) {
                    Flow::Stops
                } else {
                    Flow::Untyped
                }
            }
            _ => Flow::Untyped,
        }
    }

    /// Whether the type at an index of a stack fits its argument's place: the last argument is on top.
    fn argument_fits(&self, arguments: &[Place], stack: &[Kind], i: usize) -> bool
        requires { i < length arguments.now }
        ensures { (place : Held) (kind : Typed) →
            result ≡ (nat_lt i (length stack.now)
            && kind_fits (world_of self.now.world.now) (get_or stack.now i kind)
            (kind_of (get_or arguments.now (length arguments.now - 1 - i) place))) }
    {
        let place = arguments[arguments.len() - 1 - i];
        match stack.get(i) {
            Some(kind) => fits_place(self.world, *kind, place),
            None => false,
        }
    }

    /// Whether the arguments of a call fit their places.
    fn arguments_fit(&self, arguments: &[Place], stack: &[Kind]) -> bool
        ensures { under_arguments (world_of self.now.world.now) (last_first arguments.now []) stack.now
            ≡ (if result then Some (drop (length arguments.now) stack.now) else None) }
    {
        for i in 0..arguments.len() {
            if !self.argument_fits(arguments, stack, i) {
                return false;
            }
        }
        true
    }

    /// A call of a method: one without its shape in the profile ends the run, and an abstract one has no typing.
    fn calls_target(&self, target: MethodId, stack: &[Kind]) -> Flow
        ensures { (arg : Argument) → as_flow result arg stack.now ≡ calls_by self.now target stack.now }
    {
        let Some(shape) = self.world.shape_of(target) else {
            return Flow::Stops;
        };
        let arguments = shape.arguments.as_slice();
        if self.world.is_abstract(target) || !self.arguments_fit(arguments, stack) {
            return Flow::Untyped;
        }
        match shape.result {
            Some(place) => goes_on(self.next, arguments.len(), Some(kind_of(place))),
            None => goes_on(self.next, arguments.len(), None),
        }
    }

    /// A call: a token that does not resolve ends the run.
    #[tactic(auto, unfolding(cil_meaning::specs::Typing::flow_of))]
    fn calls(&self, arg: &Arg, stack: &[Kind]) -> Flow
        ensures { as_flow result arg.now stack.now ≡ rule_of self.now Operation.Call arg.now stack.now }
    {
        match arg {
            Arg::Token(token) => match self.world.resolve_method(self.method.id.asm, *token) {
                Some(target) => self.calls_target(target, stack),
                None => Flow::Stops,
            },
            _ => Flow::Untyped,
        }
    }

    /// What follows an instruction at a stack.
    #[tactic(auto, unfolding(cil_meaning::specs::Typing::flow_of))]
    pub(crate) fn flow(&self, operation: Operation, arg: &Arg, stack: &[Kind]) -> Flow
        ensures { as_flow result arg.now stack.now ≡ rule_of self.now operation arg.now stack.now }
    {
        match operation {
            Operation::Call => self.calls(arg, stack),
            Operation::Return => self.returns(stack),
            Operation::Jump => self.jumps(arg, stack),
            Operation::BranchFalse | Operation::BranchTrue => self.tests(arg, stack),
            Operation::Branch(comparison) => self.compares_and_branches(comparison, arg, stack),
            Operation::Switch => self.switches(arg, stack),
            _ => self.of_values(operation, stack),
        }
    }
}

/// The type of the values of an integer type on the stack.
fn kind_of_type(to: IntegerType) -> Kind
    ensures { result ≡ (if is_wide to then kinds.I8 else kinds.I4) }
{
    match to {
        IntegerType::I8 | IntegerType::U8 => Kind::I8,
        _ => Kind::I4,
    }
}
