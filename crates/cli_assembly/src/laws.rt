//! What holds of written signatures, whatever reads or writes them.

ghost use Rattle.std.specs.Prelude.{◌≡◌, ◌<◌, ◌≤◌, ◌^◌, ℕ, All, List, Some, length, is_some, IsTrue};
ghost use Rattle.cli_assembly.specs.declared.signature.MethodSig.{MethodSig};
ghost use Rattle.cli_assembly.specs.declared.signature.TypeSig.{TypeSig};
ghost use Rattle.cli_assembly.specs.Types.{coded_type};
ghost use Rattle.cli_assembly.specs.Signatures.{field_sig_of, local_sig_of, method_sig_of};
ghost use Rattle.cli_assembly.specs.Shortest.{IsWritable, IsWritableType, coded_of_token, field_sig_bytes, local_sig_bytes, method_sig_bytes, type_tag};

/// The law of the spellings that [`crate::write_method_sig`], [`crate::write_field_sig`] and [`crate::write_local_sig`] write:
/// each is read as the signature that was written.
pub fn signatures_are_read_back()
    ensures methods { (sig : MethodSig) → IsWritable sig → method_sig_of (method_sig_bytes sig) ≡ Some sig }
    ensures fields { (of : TypeSig) → IsWritableType of → field_sig_of (field_sig_bytes of) ≡ Some of }
    ensures locals { (locals : List TypeSig) → length locals < 2 ^ 29 → All IsWritableType locals
        → local_sig_of (local_sig_bytes locals) ≡ Some locals }
    // A class keeps its token.
    ensures tokens { (token : ℕ) → IsTrue (is_some (type_tag token)) → coded_type (coded_of_token token) ≡ Some token }
{}

/// The law of shortest signatures: no blob that spells a signature has fewer bytes than [`crate::write_method_sig`],
/// [`crate::write_field_sig`] or [`crate::write_local_sig`] write of it.
pub fn signatures_are_shortest()
    ensures methods { (bytes : List ℕ) (sig : MethodSig) → All (λ b. b < 256) bytes → IsWritable sig → method_sig_of bytes ≡ Some sig
        → length (method_sig_bytes sig) ≤ length bytes }
    ensures fields { (bytes : List ℕ) (of : TypeSig) → All (λ b. b < 256) bytes → IsWritableType of → field_sig_of bytes ≡ Some of
        → length (field_sig_bytes of) ≤ length bytes }
    ensures locals { (bytes : List ℕ) (locals : List TypeSig) → All (λ b. b < 256) bytes → All IsWritableType locals
        → local_sig_of bytes ≡ Some locals → length (local_sig_bytes locals) ≤ length bytes }
{}
