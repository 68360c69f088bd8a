//! Laws of settings.

ghost use Rattle.rs_settings.specs.Apart.{ServicesAreApart};
ghost use Rattle.rs_settings.specs.Formats.{FirstIsPlain, FormatsAgree};

/// A law: no two services have the same label, major number or port, and only one service publishes a name, once.
pub fn services_are_apart()
    ensures { ServicesAreApart }
{}

/// A law: a document without a field `format` at its top is read alike as of format 1 and as of any format.
pub fn formats_agree()
    ensures { FormatsAgree }
{}

/// A law: no service of format 1 has `complains`, `connects`, `forget` or `startup`.
pub fn first_is_plain()
    ensures { FirstIsPlain }
{}
