//! What holds of written formats, whatever reads or writes them.

ghost use Rattle.std.specs.Prelude.{◌≡◌, ◌<◌, ◌^◌, ◌++◌, ℕ, List, length};
ghost use Rattle.native_format.specs.declared.sparse.Element.{Element as ArrayElement};
ghost use Rattle.native_format.specs.Laws.{LengthsAreBounded, WrittenIsRead};
ghost use Rattle.native_format.specs.SparseBytes.{AreElements, sparse_bytes};
ghost use Rattle.native_format.specs.SparseLengths.{HoldsPlaced, lengths_of, sparse_len};

/// The law of written sparse arrays: how long one is, and the place of the content of each index, depends on the
/// lengths of its contents alone. Like each law here the call does nothing when it runs.
pub fn lengths_decide_places()
    ensures length { (count : ℕ) (elements : List ArrayElement)
        → length (sparse_bytes count elements) ≡ sparse_len count (lengths_of elements) }
    ensures places { (count : ℕ) (elements : List ArrayElement) (rest : List ℕ) → AreElements 0 count elements
        → sparse_len count (lengths_of elements) < 2 ^ 24 → HoldsPlaced (sparse_bytes count elements ++ rest) count elements }
{}

/// The law of what is written: it is read back where it is written, whatever is before and after it.
pub fn written_is_read()
    ensures { WrittenIsRead }
{}

/// The law of written lengths: what each format's bytes cost at most, from counts alone.
pub fn lengths_are_bounded()
    ensures { LengthsAreBounded }
{}
