// What the definitions of a reading imply.
ghost use Rattle.std.specs.Prelude.{◌≡◌, ◌++◌, ◌∷◌, [], ◌↔◌, List, ℕ, Bool, true, false};
ghost use Rattle.sexpr_reader.specs.declared.kind.TokenKind.{TokenKind as AnyKind};
ghost use Rattle.sexpr_reader.specs.declared.reader.Reader.{Reader as AnyReader};
ghost use Rattle.sexpr_reader.specs.declared.sexpr.Sexpr.{Sexpr as AnySexpr};
ghost use Rattle.sexpr_reader.specs.declared.sexpr.Sexpr.TheVariants.{Atom, List as Listed};
ghost use Rattle.sexpr_reader.specs.declared.syntax_fault.SyntaxFault.{SyntaxFault as AnyFault};
ghost use Rattle.sexpr_reader.specs.Items.{HasFormedAtoms, AreFormed};
ghost use Rattle.sexpr_reader.specs.Reads.{Begins, Reads, SyntaxAt, FaultAfter, Ends};
ghost use Rattle.sexpr_reader.specs.Standing.{HasGiven};
ghost use Rattle.sexpr_reader.specs.Tokens.{IsOfKind};

/// Bytes have one reading and at most one first fault, and none where they are read to their end.
pub fn reading_is_unique()
    ensures items { (ended : Bool) (bytes : List ℕ) (these those : List AnySexpr) (rest after : List ℕ) → Reads ended bytes these rest → Reads ended bytes those after → (these ≡ those) × (rest ≡ after) }
    ensures fault { (ended : Bool) (bytes : List ℕ) (this that : AnyFault) → SyntaxAt ended bytes this → SyntaxAt ended bytes that → this ≡ that }
    ensures done { (bytes : List ℕ) (items : List AnySexpr) (fault : AnyFault) → Ends bytes items → SyntaxAt true bytes fault → ⊥ }
{}

/// What is whole stays whole when more bytes come, and the first fault stays the first, with the items before it.
pub fn more_bytes_may_follow()
    ensures items { (ended : Bool) (bytes more : List ℕ) (items : List AnySexpr) (rest : List ℕ) → Begins false bytes items rest → Begins ended (bytes ++ more) items (rest ++ more) }
    ensures fault { (ended : Bool) (bytes more : List ℕ) (items : List AnySexpr) (fault : AnyFault) → FaultAfter false bytes items fault → FaultAfter ended (bytes ++ more) items fault }
{}

/// A list is whole with its last byte, whatever was fed behind it.
pub fn lists_are_whole()
    ensures { (bytes more rest : List ℕ) (items inner : List AnySexpr) → Begins false (bytes ++ more) (items ++ Listed inner ∷ []) (rest ++ more) → Begins false bytes (items ++ Listed inner ∷ []) rest }
{}

/// Two pieces fed one after the other are one piece.
pub fn pieces_join()
    ensures { (reader : AnyReader) (bytes first second : List ℕ) (given : List AnySexpr) → HasGiven false reader ((bytes ++ first) ++ second) given → HasGiven false reader (bytes ++ (first ++ second)) given }
{}

/// The parts of an s-expression whose atoms are tokens.
pub fn parts_are_formed()
    ensures atom { (kind : AnyKind) (bytes : List ℕ) → HasFormedAtoms (Atom kind bytes) ↔ IsOfKind kind bytes }
    ensures list { (items : List AnySexpr) → HasFormedAtoms (Listed items) ↔ AreFormed items }
{}
