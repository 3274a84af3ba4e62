//! Types of values: which ones fit a place or one another, and what two widen to.

ghost use Rattle.std.specs.Prelude.{◌≡◌, ◌<◌, true, false, length, get_or, slice_set};
ghost use Rattle.cil_meaning.specs.declared.kind.Kind.{Kind as Typed};
ghost use Rattle.type_world.specs.Loading.{world_of};
ghost use Rattle.cil_meaning.specs.Typing.{can_compare, can_compare_references, is_integer, kind_fits, kind_of};
ghost use Rattle.cil_meaning.specs.Typing.{same_width, stack_fits, widen, widen_all};

use cil_decode::Comparison;
use cil_meaning::Kind;
use cli_assembly::Elem;
use type_world::{Place, World};

/// The type of the value that a place gives.
pub(crate) fn kind_of(place: Place) -> Kind
    ensures { result ≡ kind_of place }
{
    match place {
        Place::Integer(Elem::I8 | Elem::U8) => Kind::I8,
        Place::Integer(_) => Kind::I4,
        Place::Reference(to) => Kind::Ref(to),
    }
}

/// Whether a value of a type is one of another type too (ECMA-335 III.1.8.1.2).
#[tactic(auto, unfolding(cil_meaning::specs::Typing::kind_fits))]
pub(crate) fn kind_fits(world: &World, of: Kind, to: Kind) -> bool
    ensures { result ≡ kind_fits (world_of world.now) of to }
{
    match (of, to) {
        (Kind::Null, Kind::Null | Kind::Ref(_)) => true,
        (Kind::Ref(of), Kind::Ref(to)) => world.fits(of, to),
        _ => same_width(of, to),
    }
}

/// Whether a value of a type fits a place.
pub(crate) fn fits_place(world: &World, of: Kind, place: Place) -> bool
    ensures { result ≡ kind_fits (world_of world.now) of (kind_of place) }
{
    kind_fits(world, of, kind_of(place))
}

/// The type that two types widen to.
pub(crate) fn widen(world: &World, kind: Kind, other: Kind) -> Kind
    ensures { result ≡ widen (world_of world.now) kind other }
{
    match (kind, other) {
        (Kind::Null, _) => other,
        (Kind::Ref(of), Kind::Ref(to)) => Kind::Ref(world.common_base(of, to)),
        _ => kind,
    }
}

/// Whether a type is one of integers.
pub(crate) fn is_integer(kind: Kind) -> bool
    ensures { result ≡ is_integer kind }
{
    matches!(kind, Kind::I4 | Kind::I8)
}

/// Whether two types are integers of one width.
pub(crate) fn same_width(kind: Kind, other: Kind) -> bool
    ensures { result ≡ same_width kind other }
{
    matches!((kind, other), (Kind::I4, Kind::I4) | (Kind::I8, Kind::I8))
}

/// Whether a comparison takes two references, in a branch or not.
fn can_compare_references(branches: bool, comparison: Comparison, kind: Kind, other: Kind) -> bool
    ensures { result ≡ can_compare_references branches comparison kind other }
{
    match comparison {
        Comparison::Equal | Comparison::NotEqual => true,
        Comparison::GreaterUnsigned => !branches && matches!(other, Kind::Null),
        _ => false,
    }
}

/// Whether a comparison takes two values, in a branch or not (ECMA-335 III.1.5).
pub(crate) fn can_compare(branches: bool, comparison: Comparison, kind: Kind, other: Kind) -> bool
    ensures { result ≡ can_compare branches comparison kind other }
{
    if !is_integer(kind) && !is_integer(other) {
        can_compare_references(branches, comparison, kind, other)
    } else {
        same_width(kind, other)
    }
}

/// Whether two types are one.
fn is_same(kind: Kind, other: Kind) -> bool
    ensures { result ≡ true → kind ≡ other }
{
    kind == other
}

/// Widens the type at an index by that of another stack. `false` where it is as before.
fn widen_at(world: &World, stack: &mut [Kind], other: &[Kind], i: usize) -> bool
    requires stack { i < length stack.old }
    requires other { i < length other.now }
    ensures widened { (d : Typed) → stack.new ≡ slice_set stack.old i (widen (world_of world.now) (get_or stack.old i d) (get_or other.now i d)) }
    ensures unchanged { result ≡ false → stack.new ≡ stack.old }
{
    let widened = widen(world, stack[i], other[i]);
    if is_same(widened, stack[i]) {
        return false;
    }
    stack[i] = widened;
    true
}

/// Widens a stack by another one. `false` where it is as before.
pub(crate) fn widen_stack(world: &World, stack: &mut [Kind], other: &[Kind]) -> bool
    ensures widened { stack.new ≡ widen_all (world_of world.now) stack.old other.now }
    ensures unchanged { result ≡ false → stack.new ≡ stack.old }
{
    let mut changed = false;
    for i in 0..stack.len().min(other.len()) {
        if widen_at(world, stack, other, i) {
            changed = true;
        }
    }
    changed
}

/// Whether the types of a stack fit those of another one of the same length.
pub(crate) fn stack_fits(world: &World, stack: &[Kind], other: &[Kind]) -> bool
    ensures { result ≡ stack_fits (world_of world.now) stack.now other.now }
{
    if stack.len() != other.len() {
        return false;
    }
    for i in 0..stack.len() {
        if !kind_fits(world, stack[i], other[i]) {
            return false;
        }
    }
    true
}
