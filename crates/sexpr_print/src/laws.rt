// What the definitions of print and of a reading imply together.
ghost use Rattle.std.specs.Prelude.{◌≡◌, ◌++◌, ◌∷◌, [], ◌⊎◌, List, ℕ, Bool, true, false};
ghost use Rattle.sexpr_reader.specs.Reads.{Begins, Ends};
ghost use Rattle.sexpr_reader.specs.declared.sexpr.Sexpr.{Sexpr as AnySexpr};
ghost use Rattle.sexpr_reader.specs.declared.sexpr.Sexpr.TheVariants.{List as Listed};
ghost use Rattle.sexpr_print.specs.Printed.{printed, printed_lines, line_end, IsPrintable, ArePrintable};

/// Where the bytes of each atom are a token of its kind, and no more than 1,000 lists stand inside
/// one another: a printed list is whole with its last byte and reads back as itself; so do lines
/// with an s-expression each, whatever follows them; and where nothing follows, they are all.
pub fn printed_items_are_read()
    ensures list { (ended : Bool) (inner : List AnySexpr) (more : List ℕ) → IsPrintable (Listed inner) → Begins ended (printed (Listed inner) ++ more) (Listed inner ∷ []) more }
    ensures lines { (ended : Bool) (items : List AnySexpr) (more : List ℕ) → ArePrintable items → Begins ended (printed_lines items ++ more) items (line_end items ++ more) }
    ensures all { (items : List AnySexpr) → ArePrintable items → Ends (printed_lines items) items }
{}

/// Of two lists of s-expressions that bytes begin with, one goes on where the other stops; and none goes
/// on behind all that are read to the end.
pub fn readings_agree()
    ensures further { (ended : Bool) (bytes : List ℕ) (these those : List AnySexpr) (rest after : List ℕ) → Begins ended bytes these rest → Begins ended bytes those after → ((more : List AnySexpr) × (those ≡ these ++ more)) ⊎ ((more : List AnySexpr) × (these ≡ those ++ more)) }
    ensures all { (bytes : List ℕ) (all items : List AnySexpr) (rest : List ℕ) → Ends bytes all → Begins true bytes items rest → (more : List AnySexpr) × (all ≡ items ++ more) }
{}
