//! What holds of each assembly that passes all checks, whatever reads it.

ghost use Rattle.std.specs.Prelude.{ℕ, List};
ghost use Rattle.cli_assembly.specs.Assemblies.{assembly_of};
ghost use Rattle.cli_assembly.specs.Named.{AreNamed, IsOneAssembly, IsWellFormed, ListsAscend};

/// The law of columns: what the number in each column of each row names is there. So each index into `#Strings` has a text, and each
/// index into `#Blob` a blob.
pub fn columns_are_named()
    ensures { (bytes : List ℕ) → IsWellFormed bytes → AreNamed (assembly_of bytes) }
{}

/// The law of one assembly: Module and Assembly have one row each.
pub fn one_module_and_manifest()
    ensures { (bytes : List ℕ) → IsWellFormed bytes → IsOneAssembly (assembly_of bytes) }
{}

/// The law of lists: the fields and the methods of each type begin where those of the type before end, and are rows of their tables.
pub fn lists_ascend()
    ensures { (bytes : List ℕ) → IsWellFormed bytes → ListsAscend (assembly_of bytes) }
{}
