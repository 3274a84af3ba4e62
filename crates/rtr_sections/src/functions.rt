//! Functions: where the code of each compiled method is.

ghost use Rattle.std.specs.Prelude.{None, ◌≡◌, ◌+◌, ◌<◌, ◌^◌, IfErr, IfOk, IfSome, OnOk, is_some, true, false};
ghost use Rattle.rtr_bytes.specs.Checks.{fault_or, RefusedBy};
ghost use Rattle.rtr_sections.specs.Functions.{bad_function, end_before, end_of, function_at, functions_in, holds_behind, is_function, unwind_place};

use crate::check::Check;
use crate::file::File;
use rtr_bytes::{Fault, ReadRefusal, Span, ensure};
use std::alloc::Global;

/// One entry of RuntimeFunctions (ReadyToRun File Format, "READYTORUN_SECTION_RUNTIME_FUNCTIONS").
#[derive(Clone, Copy, Debug, PartialEq, Eq)]
pub struct Function {
    /// The RVA of the code's first instruction.
    pub begin: u32,
    /// The code's length in bytes, which is the entry's unwind word.
    pub length: u32,
}

/// The bytes of an entry.
pub(crate) const ENTRY_SIZE: u32 = 8;
/// Where UnwindData is in an entry.
const UNWIND_DATA: u32 = 4;
/// The bytes of an entry's unwind word.
const UNWIND_SIZE: u32 = 4;
/// The bytes of an instruction.
const INSTRUCTION_SIZE: u32 = 4;

impl Function {
    /// The entry at a place, where its unwind word is in a section of the file.
    #[tactic(auto, unfolding(crate::specs::Functions::function_at))]
    fn read(file: &File<'_>, at: u32) -> Option<Function>
        requires in_reach { at + 8 < 2 ^ 32 }
        ensures there { is_some result ≡ is_some (unwind_place file.now at) }
        ensures function { IfSome result (λ function. function ≡ function_at file.now at) }
    {
        let unwind = file.place_of(file.u32_or_zero(at + UNWIND_DATA), UNWIND_SIZE)?;
        Some(Function {
            begin: file.u32_or_zero(at),
            length: file.u32_or_zero(unwind),
        })
    }

    /// The RVA after its code.
    pub(crate) fn end(&self) -> u64
        ensures { result ≡ end_of self.now }
    {
        u64::from(self.begin) + u64::from(self.length)
    }

    /// Whether its code is whole instructions in a section of the file, from an RVA on.
    fn is_code(&self, file: &File<'_>, low: u64) -> bool
        ensures { result ≡ is_function file.now low self.now }
    {
        self.begin % INSTRUCTION_SIZE == 0
            && self.length % INSTRUCTION_SIZE == 0
            && file.place_of(self.begin, self.length).is_some()
            && low <= u64::from(self.begin)
    }

    /// The entry at a place, once it is in order, after code that ends at an RVA.
    #[tactic(auto, unfolding(crate::specs::Functions::holds_behind))]
    fn checked(file: &File<'_>, at: u32, low: u64) -> Result<Function, Fault>
        requires in_reach { at + 8 < 2 ^ 32 }
        ensures fault { IfErr result (λ f. (holds_behind file.now low at ≡ false) × (f ≡ record { check = 62; place = at })) }
        ensures holds { OnOk result (holds_behind file.now low at ≡ true) }
        ensures function { IfOk result (λ function. function ≡ function_at file.now at) }
    {
        match Function::read(file, at) {
            Some(function) if function.is_code(file, low) => Ok(function),
            _ => Err(Fault {
                check: Check::RuntimeFunction as u16,
                place: at,
            }),
        }
    }
}

/// The functions of a part, once its entries are whole and each is in order.
pub(crate) fn read_functions(
    alloc: Global,
    file: &File<'_>,
    part: Span,
) -> Result<Vec<Function>, ReadRefusal>
    requires in_reach { part.start + part.len < 2 ^ 32 }
    ensures fault { IfErr result (λ e. RefusedBy (fault_or 62 (bad_function file.now part) None) e) }
    ensures ok { OnOk result (bad_function file.now part ≡ None) }
    ensures functions { IfOk result (λ functions. functions.items ≡ functions_in file.now part) }
{
    let whole = part.len % ENTRY_SIZE == 0;
    ensure(whole, Check::RuntimeFunction as u16, part.start)?;
    let mut functions = Vec::new(alloc);
    let mut low = 0;
    for i in 0..part.len / ENTRY_SIZE {
        let function = Function::checked(file, part.start + ENTRY_SIZE * i, low)?;
        low = function.end();
        functions.push(function)?;
    }
    Ok(functions)
}
