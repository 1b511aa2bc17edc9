// What the definitions of a generated script's items imply.
ghost use Rattle.std.specs.Prelude.{◌≡◌, ℕ};
ghost use Rattle.generated_items.specs.Items.{script_items};
ghost use Rattle.generated_script.specs.Blocks.{script};
ghost use Rattle.sexpr_print.specs.Printed.{ArePrintable, printed_lines};
ghost use Rattle.sexpr_reader.specs.Reads.{Ends};

/// The script of a seed is its items, each printed on a line of its own, and so they are all that is
/// read from it.
pub fn scripts_are_items()
    ensures text { (seed size : ℕ) → printed_lines (script_items seed size) ≡ script seed size }
    ensures formed { (seed size : ℕ) → ArePrintable (script_items seed size) }
    ensures read { (seed size : ℕ) → Ends (script seed size) (script_items seed size) }
{}
