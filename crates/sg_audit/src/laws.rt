//! What holds of all bytes. Each function is a law: it does nothing, and its contract is the statement.
ghost use Rattle.sg_audit.specs.Laws.{FaultsAreOne, LogsAreOne, WrongIsNoLogs};

/// Bytes spell the logs of one run at most, have one first fault at most, and have none where they spell logs. So an answer of
/// `read_logs` that isn't `OutOfMemory` is the only one that its contract allows.
pub fn answers_are_one()
    ensures logs { LogsAreOne }
    ensures fault { FaultsAreOne }
    ensures apart { WrongIsNoLogs }
{}
