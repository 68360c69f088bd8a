//! Laws of the lines of changes.

ghost use Rattle.std.specs.Prelude.{◌≡◌, ◌≢◌, ℕ, List, [], ◌∷◌, ◌++◌};
ghost use Rattle.ds_entry.specs.Change.{ChangeRecord, IsChange};
ghost use Rattle.ds_line.specs.Spelling.{change_parts, spelling};
ghost use Rattle.ds_line.specs.FaultPlace.{IsFaultPlace};
ghost use Rattle.line_io.specs.Lines.{EndsLine};

/// A law: two changes with the same spelling are equal.
pub fn changes_have_one_line()
    ensures { (c d : ChangeRecord) → IsChange c → IsChange d → spelling c ≡ spelling d → c ≡ d }
{}

/// A law: no spelling is a prefix of another. If bytes begin with the lines of two changes, the two are equal, and so
/// are the bytes after them.
pub fn lines_are_apart()
    ensures { (c d : ChangeRecord) (r s : List ℕ) → IsChange c → IsChange d → spelling c ++ r ≡ spelling d ++ s → (c ≡ d) × (r ≡ s) }
{}

/// A law: bytes have at most one place where the first part that can't be read of a change begins.
pub fn faults_have_one_place()
    ensures { (bytes : List ℕ) (p q : ℕ) → IsFaultPlace IsChange change_parts bytes p → IsFaultPlace IsChange change_parts bytes q → p ≡ q }
{}

/// A law: a spelling has one newline, its last byte.
pub fn newlines_end_lines()
    ensures { (c : ChangeRecord) → IsChange c → EndsLine (spelling c) }
{}
