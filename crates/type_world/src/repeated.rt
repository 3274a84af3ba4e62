//! Base chains that come back to one of their types (ECMA-335 II.22.37 allows none, and no check refuses one).

ghost use Rattle.std.specs.Prelude.{IfSome};
ghost use Rattle.type_world.specs.Loading.{world_of};
ghost use Rattle.type_world.specs.Repeated.{IsRepeated};

use crate::base::Base;
use crate::identity::TypeId;
use crate::signatures::same_id;
use crate::types::Types;

impl Types {
    /// A type that the base chain of a type comes back to, where it comes back to one. One type of the chain is remembered, after twice as
    /// many bases each time, and the chain is followed until it comes back to that: after at most three times as many bases as it has types.
    /// What a search finds doesn't depend on this type; how long it takes does. So that one is found where there is one is not stated.
    pub(crate) fn repeated(&self, of: TypeId) -> Option<TypeId>
        ensures { IfSome result (IsRepeated (world_of self.now)) }
    {
        let mut at = of;
        let mut remembered = of;
        let mut next: u64 = 1;
        for steps in 0..3 * self.longest_chain() as u64 {
            match self.base_of(at) {
                Base::Extends(base) => at = base,
                _ => return None,
            }
            if same_id(at, remembered) {
                return Some(at);
            }
            if steps == next {
                remembered = at;
                next = 2 * steps;
            }
        }
        None
    }
}
