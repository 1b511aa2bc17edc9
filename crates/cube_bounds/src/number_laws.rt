//! Laws of the numbers. Each is a function without a body, whose clause is the law.
ghost use Rattle.cube_bounds.specs.NumberLaws.{
  GrowthGoesAlong,
  GrowthIsBounded,
  GrowthIsSolved,
  SourcesStand,
  StatesAreBounded,
  StatesAreSolved,
  TransducersWriteWithin,
  WordsAreShort,
};

/// The states of a variable are its own bound, times what each definition that uses it multiplies them by,
/// and no more than those of the cube.
pub fn states_are_solved()
    ensures solved { StatesAreSolved }
    ensures bounded { StatesAreBounded }
{}

/// The growth of a variable is that of its definition, and 1 of one that isn't defined; it is at least 1,
/// and no more than that of the cube.
pub fn growth_is_solved()
    ensures solved { GrowthIsSolved }
    ensures bounded { GrowthIsBounded }
{}

/// Growth doesn't fall along a definition, nor below what a transducer for it writes at most.
pub fn growth_goes_along()
    ensures along { GrowthGoesAlong }
    ensures within { TransducersWriteWithin }
{}

/// Where there is a register, some variable isn't defined.
pub fn sources_stand()
    ensures { SourcesStand }
{}

/// With n characters in the words of all sources, no word that the definitions give has more than growth
/// times n + 1, and none is too long where n is within reach.
pub fn words_are_short()
    ensures { WordsAreShort }
{}
