//! The states of a pipe are those of the plain definitions, and its bytes come out in order.
ghost use Rattle.pass_pipe.specs.OnePipe.{BeginLaw, StepLaw, FaultLaw, OthersLaw, OrderLaw};

/// With `PipeState::new` where the pipe is made, and `give`, `take_into`, `hold` and `drop_end` at its entries, the state is
/// that of the history.
pub fn one_pipe()
    ensures begins { BeginLaw }
    ensures steps { StepLaw }
    ensures faults { FaultLaw }
    ensures others { OthersLaw }
{}

/// What was read from a pipe, and then what is left in it, is what was written to it.
pub fn order()
    ensures { OrderLaw }
{}
