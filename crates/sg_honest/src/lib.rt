//! The pasts of principals that run are those of honest principals.
//!
//! Each function is a law about them: it does nothing, and its contract is the law. By `sg_apart` all calls of several such principals, in
//! the order in which they happened, are a run apart, and if the assumptions hold of it, one walk explains each session.
#![tactic(auto)]

ghost use Rattle.sg_honest.specs.Laws.{PlaysAreHonest, RunsAreHonest};

/// As far as a script was played over deliveries and random bytes, the player's past is that of an honest principal: its calls were in range, and
/// answered as its node answers.
pub fn plays_are_honest()
    ensures { PlaysAreHonest }
{}

/// The past of a run of lines that were served is that of an honest principal, whatever the lines are and whatever the link does.
pub fn runs_are_honest()
    ensures { RunsAreHonest }
{}
