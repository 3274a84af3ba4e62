//! Which types and methods are in the profile, one answer a row, as a world keeps it.

ghost use Rattle.std.specs.Prelude.{◌≡◌, option_copied, slice_get, is_some, IfOk, IfSome};
ghost use Rattle.std.specs.Option.{option_map};
ghost use Rattle.cli_assembly.specs.Kept.{answer_of};
ghost use Rattle.type_world.specs.Loading.{as_method, world_of};
ghost use Rattle.type_world.specs.Profile.{profile_method, profile_shape, shape_in_profile, type_in_profile};
ghost use Rattle.type_world.specs.Profiled.{answers_in, answers_of, built_in_shapes, profile_locals};

use crate::answers::answer_of;
use crate::classes_in_profile::{Classes, item_at};
use crate::identity::{BUILT_IN, MethodId, TypeId};
use crate::lookups::ProfileMethod;
use crate::marks::is_marked;
use crate::numbers::BUILT_IN_METHODS;
use crate::place::{Place, Shape};
use crate::types::Types;
use metadata::Table;
use rtr_bytes::{NoMemory, Sequence};
use std::alloc::Global;
use std::marker::Model;

/// Whether a row has a shape.
fn has_shape(shapes: &[Option<Shape>], row: u32) -> bool
    ensures { result ≡ is_some (answer_of shapes.now row) }
{
    answer_of(shapes, row).is_some()
}

/// What is kept of one assembly: for each row the answer.
#[derive(Debug, Drop)]
struct Answered {
    classes: Vec<bool>,
    shapes: Vec<Option<Shape>>,
    locals: Vec<Option<Sequence<Place>>>,
}

impl Model for Answered {
    ghost use Rattle.type_world.specs.Profiled.{Answers};

    ghost Value = { Answers };

    ghost view = { λ a. record { classes = a.classes.items; shapes = a.shapes.items; locals = a.locals.items } };
}

impl Answered {
    /// What is kept of the assembly at a position.
    #[tactic(auto, unfolding(crate::specs::Profiled::answers_of))]
    fn of(alloc: Global, classes: &Classes, asm: u8) -> Result<Answered, NoMemory>
        ensures { IfOk result (λ answered. answered ≡ answers_of (world_of classes.now) asm) }
    {
        let in_profile = classes.classes_in_profile(alloc, asm)?;
        let shapes = classes.shapes_in_profile(alloc, asm)?;
        let locals = classes.locals_in_profile(alloc, asm, &shapes)?;
        Ok(Answered {
            classes: in_profile,
            shapes,
            locals,
        })
    }

    /// Whether a row of TypeDef, or row 0, is in the profile; `None` for a row after the last.
    fn class_in_profile(&self, row: u32) -> Option<bool>
        ensures { result ≡ slice_get self.now.classes row }
    {
        match item_at(self.classes.as_slice(), row) {
            Some(answer) => Some(*answer),
            None => None,
        }
    }

    /// The shape of a row of MethodDef, where it is in the profile.
    fn shape(&self, row: u32) -> Option<&Shape>
        ensures { option_copied result ≡ answer_of self.now.shapes row }
    {
        answer_of(self.shapes.as_slice(), row)
    }

    /// The locals of a row of MethodDef that meets each condition of the profile but that it verifies.
    fn locals(&self, row: u32) -> Option<&[Place]>
        ensures { option_copied result ≡ answer_of self.now.locals row }
    {
        Some(answer_of(self.locals.as_slice(), row)?.as_slice())
    }
}

impl Classes {
    /// Which rows of TypeDef of an assembly are in the profile, from row 0, which is none.
    fn classes_in_profile(&self, alloc: Global, asm: u8) -> Result<Vec<bool>, NoMemory>
        ensures { IfOk result (λ classes. classes.items ≡ (answers_of (world_of self.now) asm).classes) }
    {
        let rows = self.types().assemblies().rows_at(Table::TypeDef, asm);
        let mut classes = Vec::new(alloc);
        for row in 0..rows + 1 {
            classes.push(self.type_in_profile(TypeId::Class(asm, row)))?;
        }
        Ok(classes)
    }

    /// The shapes of the rows of MethodDef of an assembly, where they are in the profile.
    fn shapes_in_profile(&self, alloc: Global, asm: u8) -> Result<Vec<Option<Shape>>, NoMemory>
        ensures { IfOk result (λ shapes. shapes.items ≡ (answers_of (world_of self.now) asm).shapes) }
    {
        let types = self.types();
        let mut shapes = Vec::new(alloc);
        for index in 0..types.assemblies().rows_at(Table::MethodDef, asm) {
            let method = MethodId {
                asm,
                row: index + 1,
            };
            shapes.push(types.profile_shape(alloc, method)?)?;
        }
        Ok(shapes)
    }

    /// The locals of the rows of MethodDef of an assembly that meet each condition of the profile but that they verify.
    fn locals_in_profile(
        &self,
        alloc: Global,
        asm: u8,
        shapes: &[Option<Shape>],
    ) -> Result<Vec<Option<Sequence<Place>>>, NoMemory>
        requires { shapes.now ≡ (answers_of (world_of self.now) asm).shapes }
        ensures { IfOk result (λ locals. locals.items ≡ (answers_of (world_of self.now) asm).locals) }
    {
        let assemblies = self.types().assemblies();
        let generic = assemblies.generic_rows(alloc, asm, Table::MethodDef)?;
        let generic_rows = generic.as_slice();
        let mut locals = Vec::new(alloc);
        for index in 0..assemblies.rows_at(Table::MethodDef, asm) {
            let row = index + 1;
            let method = MethodId { asm, row };
            let is_generic = is_marked(generic_rows, row);
            locals.push(self.profile_locals(alloc, method, has_shape(shapes, row), is_generic)?)?;
        }
        Ok(locals)
    }

    /// The shapes of the built-in methods, where they are in the profile.
    fn built_in_shapes(&self, alloc: Global) -> Result<Vec<Option<Shape>>, NoMemory>
        ensures { IfOk result (λ shapes. shapes.items ≡ built_in_shapes (world_of self.now)) }
    {
        let types = self.types();
        let mut shapes = Vec::new(alloc);
        for index in 0..BUILT_IN_METHODS {
            let method = MethodId {
                asm: BUILT_IN,
                row: index + 1,
            };
            shapes.push(types.profile_shape(alloc, method)?)?;
        }
        Ok(shapes)
    }

    /// What is kept of all assemblies, by position.
    fn all_answered(&self, alloc: Global) -> Result<Vec<Answered>, NoMemory>
        ensures { IfOk result (λ all. all.items ≡ answers_in (world_of self.now)) }
    {
        let mut all = Vec::new(alloc);
        for asm in 0..self.types().assemblies().count() {
            all.push(Answered::of(alloc, self, asm)?)?;
        }
        Ok(all)
    }
}

/// The types of a world, with which of its types and methods are in the profile. Contracts see the bytes of the files.
#[derive(Debug, Drop)]
pub(crate) struct Profile {
    classes: Classes,
    answered: Vec<Answered>,
    built_in: Vec<Option<Shape>>,
}

impl Model for Profile {
    ghost use Rattle.std.specs.Prelude.{◌≡◌, ℕ, List};
    ghost use Rattle.type_world.specs.Loading.{world_of};
    ghost use Rattle.type_world.specs.Profiled.{answers_in, built_in_shapes};

    ghost Value = { List (List ℕ) };

    ghost view = { λ p. p.classes };

    ghost invariant = { λ p. (p.answered.items ≡ answers_in (world_of p.classes)) × (p.built_in.items ≡ built_in_shapes (world_of p.classes)) };
}

impl Profile {
    /// What is in the profile, of some types.
    pub(crate) fn new(alloc: Global, types: Types) -> Result<Profile, NoMemory>
        ensures { IfOk result (λ profile. profile ≡ types) }
    {
        let classes = Classes::new(alloc, types)?;
        let answered = classes.all_answered(alloc)?;
        let built_in = classes.built_in_shapes(alloc)?;
        Ok(Profile {
            classes,
            answered,
            built_in,
        })
    }

    /// The types.
    pub(crate) fn types(&self) -> &Types
        ensures { result.now ≡ self.now }
    {
        self.classes.types()
    }

    /// What is kept of the assembly at a position.
    fn answered_at(&self, asm: u8) -> Option<&Answered>
        ensures { option_copied result ≡ slice_get (answers_in (world_of self.now)) asm }
    {
        self.answered.get(asm as usize)
    }

    /// Whether a row of TypeDef, or row 0, is in the profile, as it is kept. A row after the last has no answer.
    fn kept_class(&self, asm: u8, row: u32) -> Option<bool>
        ensures { IfSome result (λ kept. kept ≡ type_in_profile (world_of self.now) (TypeId.Class asm row)) }
    {
        match self.answered_at(asm) {
            Some(answered) => answered.class_in_profile(row),
            None => None,
        }
    }

    /// Whether a row of TypeDef is in the profile. For a row after the last, which nothing names, the tables are asked.
    fn class_in_profile(&self, asm: u8, row: u32) -> bool
        ensures { result ≡ type_in_profile (world_of self.now) (TypeId.Class asm row) }
    {
        match self.kept_class(asm, row) {
            Some(answer) => answer,
            None => self.classes.type_in_profile(TypeId::Class(asm, row)),
        }
    }

    /// Whether a type is in the profile by its definition. The built-in ones and arrays are not.
    pub(crate) fn type_in_profile(&self, of: TypeId) -> bool
        ensures { result ≡ type_in_profile (world_of self.now) of }
    {
        match of {
            TypeId::Class(asm, row) => self.class_in_profile(asm, row),
            _ => self.classes.type_in_profile(of),
        }
    }

    /// Whether a method has its shape in the profile, that is, whether it can be called.
    pub(crate) fn shape_in_profile(&self, method: MethodId) -> bool
        ensures { result ≡ shape_in_profile (world_of self.now) method }
    {
        self.shape_of(method).is_some()
    }

    /// The arguments and the result of a method whose shape is in the profile; `None` exactly for any other.
    pub(crate) fn shape_of(&self, method: MethodId) -> Option<&Shape>
        ensures { option_copied result ≡ profile_shape (world_of self.now) method }
    {
        if method.asm == BUILT_IN {
            return answer_of(self.built_in.as_slice(), method.row);
        }
        match self.answered_at(method.asm) {
            Some(answered) => answered.shape(method.row),
            None => None,
        }
    }

    /// The locals of a method that meets each condition of the profile but that it verifies. No built-in method does.
    fn locals_of(&self, method: MethodId) -> Option<&[Place]>
        ensures { option_copied result ≡ profile_locals (world_of self.now) method }
    {
        if self.types().assemblies().count() <= method.asm {
            return None;
        }
        match self.answered_at(method.asm) {
            Some(answered) => answered.locals(method.row),
            None => None,
        }
    }

    /// A method that meets each condition of the profile but that it verifies; `None` exactly for any other.
    pub(crate) fn profile_method(&self, method: MethodId) -> Option<ProfileMethod<'_>>
        ensures { option_map as_method result ≡ profile_method (world_of self.now) method }
    {
        let locals = self.locals_of(method)?;
        let shape = self.shape_of(method)?;
        let cil = self.types().assemblies().cil_of(method)?;
        Some(ProfileMethod {
            id: method,
            shape,
            locals,
            max_stack: cil.max_stack,
            code: cil.code,
        })
    }
}
