//! What is kept for an aggregate or a node, by its number.
ghost use Rattle.std.specs.Prelude.{◌≡◌, slice_index_or, None};
ghost use Rattle.std.specs.Option.{option_copied};

/// What a list keeps for a number, where it keeps anything.
pub(crate) fn kept_at<T>(list: &[Option<T>], number: u32) -> Option<&T>
    ensures { option_copied result ≡ slice_index_or list.now number None }
{
    match list.get(number as usize) {
        None => None,
        Some(kept) => kept.as_ref(),
    }
}
