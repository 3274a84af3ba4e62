//! Worlds of assemblies: how names and signatures are resolved (ECMA-335 II.22 and II.23), which types and methods are in the
//! profile.
//!
//! The definitions are `specs/`: `World`, `Resolution`, `Members` and `Profile` of names and types.
#![tactic(auto)]

mod answers;
mod assemblies;
mod base;
mod bases;
mod built_in;
mod cil;
mod class_rows;
mod classes;
mod classes_in_profile;
mod declared;
mod declaring;
mod entries;
mod identity;
mod laws;
mod lookups;
mod marks;
mod members;
mod methods;
mod methods_in_profile;
mod name_numbers;
mod narrow;
mod numbers;
mod place;
mod placed;
mod places;
mod plain_classes;
mod profile;
mod references;
mod refusal;
mod repeated;
mod resolved;
mod room;
mod row_index;
mod rows;
mod scope;
mod shapes;
mod signatures;
mod type_names;
mod types;
mod world;

pub use assemblies::MAX_ASSEMBLIES;
pub use base::Base;
pub use identity::{BUILT_IN, FieldId, MethodId, TypeId};
pub use laws::codes_are_instructions;
pub use lookups::ProfileMethod;
pub use place::{Place, Shape};
pub use refusal::WorldRefusal;
pub use world::World;
