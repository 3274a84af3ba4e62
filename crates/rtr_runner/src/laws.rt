//! What holds of all runs.

ghost use Rattle.rtr_runner.specs.Workers.{RunsEnd};

use cil_meaning::{runs_end as runs_are_over, typed_code_runs};

/// The law of ends: the run of an entry that can be started is over, so it has its lines and an ending.
pub fn runs_end()
    ensures { RunsEnd }
{
    runs_are_over();
    typed_code_runs();
}
