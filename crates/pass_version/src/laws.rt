//! One object's own steps make its version, its mark and its ancestors as the plain definitions have them.
ghost use Rattle.pass_version.specs.OneObject.{OpeningLaw, StepLaw, OthersLaw};

/// With `Versions::new` at the opening, `mark` at each OUT, `freeze` at each freeze that is asked for or an exec, and `take`
/// at each IN, the state is that of the history.
pub fn one_object()
    ensures opens { OpeningLaw }
    ensures steps { StepLaw }
    ensures others { OthersLaw }
{}
