//! Laws of lines, over definitions alone.

ghost use Rattle.line_io.specs.Lines.{InputsHaveLines};

/// A law: every input has lines.
pub fn inputs_have_lines()
    ensures { InputsHaveLines }
{}
