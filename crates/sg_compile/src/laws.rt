//! What holds of all graphs and of all texts of programs. Each function is a law: it does nothing, and its contract is the statement.
ghost use Rattle.sg_compile.specs.Laws.{AllAreCompiledOrRefused, GraphsAreAcceptedOrRefused, RolesAreCompiledOrRefused, TextsAreReadOrRefused};
ghost use Rattle.sg_compile.specs.Laws.{AllCompiledIsNotRefused, CompiledIsNotRefused, TextHasOneFault, TextIsNotRefused, TextsDiffer};

/// A graph that has a program for a role isn't refused for it, and of graphs that have programs for all their roles none is refused.
pub fn compiled_are_not_refused()
    ensures one { CompiledIsNotRefused }
    ensures all { AllCompiledIsNotRefused }
{}

/// A graph is accepted or refused; it has a program for a role, or is refused for it; and graphs have programs for all their roles, or a first of them is
/// refused. It can't be that neither holds.
pub fn graphs_are_compiled_or_refused()
    ensures accepted { GraphsAreAcceptedOrRefused }
    ensures one { RolesAreCompiledOrRefused }
    ensures all { AllAreCompiledOrRefused }
{}

/// Two programs have two texts, the text of a program has no fault, and a text has one fault at most. Of a graph that is refused this says which
/// graph it is, not for which fault.
pub fn texts_are_one()
    ensures differ { TextsDiffer }
    ensures apart { TextIsNotRefused }
    ensures once { TextHasOneFault }
{}

/// A text is that of a program, or it has a fault. It can't be that neither holds.
pub fn texts_are_read_or_refused()
    ensures { TextsAreReadOrRefused }
{}
