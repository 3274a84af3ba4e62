//! Answers that are kept by row.

ghost use Rattle.std.specs.Prelude.{◌≡◌, option_copied};
ghost use Rattle.cli_assembly.specs.Kept.{answer_of, nth_row};

/// The item of a row, from 1.
#[tactic(auto, unfolding(cli_assembly::specs::Kept::nth_row))]
pub(crate) fn nth_row<T>(items: &[T], row: u32) -> Option<&T>
    ensures { option_copied result ≡ nth_row items.now row }
{
    if row == 0 {
        None
    } else {
        items.get(row as usize - 1)
    }
}

/// The answer of a row, from 1, where it has one.
pub(crate) fn answer_of<T>(items: &[Option<T>], row: u32) -> Option<&T>
    ensures { option_copied result ≡ answer_of items.now row }
{
    nth_row(items, row)?.as_ref()
}
