//! `main` written out gives the items that it gives with its calls, and has the counted size.

ghost use Rattle.sgl_expand.specs.Meaning.{CountsAll, KeepsMeaning};

/// A law, and no work: `main` written out gives, in every context, the items that `main` gives with its calls, where a
/// call gives what the statements of its routine give with the values of the arguments; and its nodes and its depth are
/// those that are counted without writing it out.
pub fn written_scripts_keep_items()
    ensures meaning { KeepsMeaning }
    ensures counts { CountsAll }
{}
