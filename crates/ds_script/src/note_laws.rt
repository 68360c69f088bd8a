//! Laws of what is left.

ghost use Rattle.ds_script.specs.Left.{WholeLinesAreLeft};

/// A law: of whole lines, what is left is those that are neither comments nor empty, in their order.
pub fn whole_lines_are_left()
    ensures { WholeLinesAreLeft }
{}
