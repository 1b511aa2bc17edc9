//! Laws of what sources and sinks tell.
ghost use Rattle.std.specs.Prelude.{◌≡◌, ◌++◌, ℕ, List};
ghost use Rattle.std.specs.Io.KnownBytes.{Consumes};
ghost use Rattle.std.specs.declared.option.Option.{Option as Optional};
ghost use Rattle.sv_io.specs.Histories.{Input, TellsLeft};

/// What a source gave is what it has no longer left, where it tells what is left: so a clause over the bytes that the
/// reads gave is one over the bytes left. It does nothing.
pub fn bytes_given_are_no_longer_left()
    ensures { (old new : Input) (left_old left_new : Optional (List ℕ)) (bytes : List ℕ) → TellsLeft old new left_old left_new → new.given ≡ old.given ++ bytes → Consumes left_old left_new bytes }
{}
