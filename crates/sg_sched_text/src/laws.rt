//! What holds of all bytes. Each function is a law: it does nothing, and its contract is the statement.
ghost use Rattle.sg_sched_text.specs.Laws.{FaultsAreOne, SchedulesAreOne, WrongIsNoSchedule};
ghost use Rattle.sg_sched_text.specs.Meant.{SpelledIsMeant};

/// Bytes spell one schedule at most, have one first wrong line at most and one kind of fault there, and have none if they spell a
/// schedule. So an answer of `read_schedule` that isn't `OutOfMemory` is the only one that its contract allows.
pub fn answers_are_one()
    ensures schedule { SchedulesAreOne }
    ensures fault { FaultsAreOne }
    ensures apart { WrongIsNoSchedule }
{}

/// What bytes spell is a schedule as the protocol has them. Each of its graphs has two roles or more, it has at most 200,000 steps, and
/// each step names a declared session and is in range, whatever steps come before it.
pub fn spelled_is_meant()
    ensures { SpelledIsMeant }
{}
