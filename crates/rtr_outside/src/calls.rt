//! The record of the calls that failed.

ghost use Rattle.std.specs.Prelude.{◌≡◌, ◌-◌, [], ◌∷◌, ◌++◌, length, take, OnOk, OnErr};
ghost use Rattle.rtr_outside.specs.Calls.{call};

use rtr_bytes::NoMemory;
use std::alloc::Global;
use std::marker::Model;

/// What was asked of a file.
#[derive(Clone, Copy)]
pub(crate) enum CallKind {
    /// Its bytes.
    Read,
    /// To have other bytes.
    Write,
}

/// A call that failed.
#[derive(Drop)]
pub(crate) struct FailedCall {
    /// What was asked.
    kind: CallKind,
    /// The name of the file.
    name: String,
}

/// The calls that failed, in their order: contracts see them as a list of calls.
#[derive(Drop)]
pub(crate) struct FailedCalls {
    calls: Vec<FailedCall>,
}

impl Model for FailedCalls {
    ghost use Rattle.std.specs.Prelude.{List, map};
    ghost use Rattle.rtr_outside.specs.Files.{Call};

    ghost Value = { List Call };

    ghost use Rattle.rtr_outside.specs.Calls.{call_of};

    ghost view = { λ c. map call_of c.calls.items };
}

impl FailedCalls {
    /// No failed call. It takes no memory.
    pub(crate) fn new(alloc: Global) -> Self
        ensures { result ≡ [] }
    {
        FailedCalls {
            calls: Vec::new(alloc),
        }
    }

    /// Enters a call after the others.
    pub(crate) fn enter(
        &mut self,
        alloc: Global,
        kind: CallKind,
        name: &str,
    ) -> Result<(), NoMemory>
        ensures ok { OnOk result (self.new ≡ self.old ++ call kind name.now ∷ []) }
        ensures err { OnErr result (self.new ≡ self.old) }
    {
        let name = String::from_str(alloc, name)?;
        self.calls.push(FailedCall { kind, name })?;
        Ok(())
    }

    /// Strikes the last call.
    pub(crate) fn strike(&mut self)
        ensures { self.new ≡ take (length self.old - 1) self.old }
    {
        let _last = self.calls.pop();
    }
}
