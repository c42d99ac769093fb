//! What holds of all files of a principal and of a run. Each function is a law: it does nothing, and its contract is the statement.
ghost use Rattle.sg_setup.specs.Laws.{PrincipalsAreThereOrNot, SetupsAreThereOrNot};

/// Files hold a principal, and a setup of a run, or there is a cause for which they hold none: a file is missing, too long or refused. It can't be that
/// neither is so.
pub fn setups_are_there_or_not()
    ensures principals { PrincipalsAreThereOrNot }
    ensures setups { SetupsAreThereOrNot }
{}
