//! Why assemblies are no world.

ghost use Rattle.std.specs.Prelude.{◌≡◌};
ghost use Rattle.type_world.specs.declared.refusal.WorldRefusal.TheVariants as refusals;

use rtr_bytes::NoMemory;
use thiserror::Error;

/// Why assemblies are no world.
#[derive(Clone, Copy, Debug, Drop, PartialEq, Eq, Error)]
pub enum WorldRefusal {
    /// There are so many, and a world has at most 64.
    #[error("too many assemblies: {0}")]
    TooMany(u32),
    /// The assemblies at these positions, from 0, have one simple name: the later one is the least that has an earlier one's name, and
    /// the earlier one the first that has it.
    #[error("assemblies {0} and {1} have one name")]
    DuplicateName(u32, u32),
    /// Memory was refused.
    #[error("no memory")]
    NoMemory,
}

impl From<NoMemory> for WorldRefusal {
    ghost from_gives = { λ _ e. e ≡ refusals.NoMemory };

    fn from(_e: NoMemory) -> WorldRefusal {
        WorldRefusal::NoMemory
    }
}
