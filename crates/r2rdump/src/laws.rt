//! What the definitions say of one another.

ghost use Rattle.std.specs.Prelude.{◌≡◌, ℕ, List};
ghost use Rattle.rtr_bytes.specs.Checks.{first_fault};
ghost use Rattle.cli_assembly.specs.Checks.{assembly_checks};
ghost use Rattle.r2rdump.specs.Dump.{file_fault, image_fault, lower};

/// The law of a file's fault: it is the one of the lower number of those that the readers of its assembly and of its
/// ReadyToRun part give. Where the assembly is refused, an image's entries may name each row of 24 bits.
pub fn fault_is_the_lower()
    ensures { (bytes : List ℕ) → file_fault bytes ≡ lower (first_fault (assembly_checks bytes) bytes) (image_fault bytes) }
{}
