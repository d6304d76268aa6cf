//! The states of a registry are those of the plain definitions, and a file's number is its own for good.
ghost use Rattle.pass_registry.specs.FileLaws.{KeepLaw, NextLaw, OwnLaw, BelowLaw};
ghost use Rattle.pass_registry.specs.OneRegistry.{BeginLaw, StepLaw, FaultLaw, OthersLaw};

/// With `Registry::new` at the opening, and the registry's calls at its entries, the state is that of the history.
pub fn one_registry()
    ensures begins { BeginLaw }
    ensures steps { StepLaw }
    ensures faults { FaultLaw }
    ensures others { OthersLaw }
{}

/// Files are numbered as they are made: no number changes, and none is given twice.
pub fn file_numbers()
    ensures keeps { KeepLaw }
    ensures next { NextLaw }
    ensures own { OwnLaw }
    ensures below { BelowLaw }
{}
