//! Laws of masks.

ghost use Rattle.ds_watch.specs.Mask.{PaddingKeepsNumber};

/// A law: padding flags to all 128 places doesn't change the mask's number.
pub fn padding_keeps_number()
    ensures { PaddingKeepsNumber }
{}
