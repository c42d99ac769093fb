//! The protocol: what graphs, frames, sessions, nodes and runs are, and what holds of them.
//!
//! The definitions stand in `specs/`, one file for each subject. Code in the crates above computes what they say,
//! and its contracts cite them. Each function here is a law about the definitions: it does nothing, and its contract
//! is the law.
//!
//! Reading order, shortest way first. What the headline says: `Graph`, `Targets`, `Knowledge`, `Evidence`, `Accepted`, `Frame`,
//! `Spelling`, `Reading`, `Texts`, `Keyring`, `Session`, `Sending`, `Checks`, `Calls`, `Node`, `Verdict`, `Acting`, `NodeAfter`,
//! `Past`, `Notes`, `Schedule`, `World`, `Crafted`, `Run`, `Premises`, `Walk`, `IsSchedule`, `Headline`. What code keeps and may
//! rely on: `Kept`, `Representation`, `Following`, `Live`, `Reachable`, `NodeStates`, `Ranges`. What a replay reports: `Explaining`, `Steps`,
//! `Broken`, `Turn`, `Named`. What else holds: `Isolation`, `Receipts`, `LastSteps`, `Completeness`, `GoesOn`, `Claims`, `Restarts`. Examples
//! are computed in `proofs/Example*.antt`. The laws of runs are proved of any course of happenings (`proofs/Happenings.antt`), which the
//! run of a schedule is (`proofs/Courses.antt`); of the proofs read `proofs/OneWalk.antt` first, which puts the headline together.
#![tactic(auto)]

ghost use Rattle.std.specs.Prelude.{◌≡◌, ◌++◌, ℕ, List, [], Ok};
ghost use Rattle.sg_model.specs.Bytes.{IsBytes};
ghost use Rattle.sg_protocol.specs.Frame.{Frame};
ghost use Rattle.sg_protocol.specs.Spelling.{HasSpelling, SpellsFrame, spelling};
ghost use Rattle.sg_protocol.specs.Reading.{read};
ghost use Rattle.sg_protocol.specs.Texts.{IsHash, real};
ghost use Rattle.sg_protocol.specs.TextLaws.{OneCast, OneOpening, OneItem, OneTextTo, OneBody, OneFrame, OneCanonical, OneGraph, KindsDiffer, VersionsDiffer};
ghost use Rattle.sg_protocol.specs.Bounds.{ShownOnce, ShownAreFew, FramesAreShort, SentAreShort, RunsSendShort};
ghost use Rattle.sg_protocol.specs.Ranges.{SessionsStayInRange, NodesStayInRange};
ghost use Rattle.sg_protocol.specs.Live.{SessionsAreSound, NodesAreSound};
ghost use Rattle.sg_protocol.specs.NodeStates.{NodeStatesRepresent};
ghost use Rattle.sg_protocol.specs.Reachable.{StatesAreReachable};
ghost use Rattle.sg_protocol.specs.Enough.{KeptIsEnough, OwnItemIsLast};
ghost use Rattle.sg_protocol.specs.Returns.{TablesShowReturns};
ghost use Rattle.sg_protocol.specs.Following.{KeptFollowsWalks};
ghost use Rattle.sg_protocol.specs.Representation.{StatesRepresent};
ghost use Rattle.sg_protocol.specs.Headline.{Headline, SessionsFollowWalks, NoneJoinsTwice, NodesJoinOnce, SessionsHaveOneCast, NoneTakesTwoRoles};
ghost use Rattle.sg_protocol.specs.Explaining.{WalksExplain, FramesShowViews, OriginsAreLastLabels};
ghost use Rattle.sg_protocol.specs.Isolation.{SessionsAreIsolated, AnswersAreOfSessions, CallsKeepAlike, CallsLeaveOthers};
ghost use Rattle.sg_protocol.specs.Receipts.{ReceiptsHaveSends};
ghost use Rattle.sg_protocol.specs.Beginnings.{RunsGoOn, PremisesHoldBefore};
ghost use Rattle.sg_protocol.specs.Broken.{ForgedIsFirst, CollisionIsFirst};
ghost use Rattle.sg_protocol.specs.Steps.{RunsGoByStep, LogsAreNumbered, FramesAreNumbered, StepsAddEntries, StepsAddLittle};
ghost use Rattle.sg_protocol.specs.LastSteps.{FramesShowLastSteps};
ghost use Rattle.sg_protocol.specs.Completeness.{DeliveryIsComplete};
ghost use Rattle.sg_protocol.specs.GoesOn.{SessionsGoOn};
ghost use Rattle.sg_protocol.specs.Turn.{TurnIsOfSession};
ghost use Rattle.sg_protocol.specs.Restarts.{RestartsAbandon, NoRestartsNoChange, LivesJoinOnce, ReportedJoinOnce, RestartsAreAbandonments, HeadlineOverRestarts, ReceiptsHaveSendsOverRestarts, SessionsHaveOneCastOverRestarts, NoneTakesTwoRolesOverRestarts, FramesShowLastStepsOverRestarts};
ghost use Rattle.sg_protocol.specs.Named.{StepsAreNamed};
ghost use Rattle.sg_protocol.specs.Claims.{ClaimsAreKept, EventsOccurOnce};

/// What is read from the spelling of a frame is this frame, so no two frames have one spelling.
pub fn frames_read()
    ensures { (f : Frame) → HasSpelling f → read (spelling f) ≡ Ok f }
{}

/// Bytes from which a frame is read are the spelling of this frame.
pub fn frames_read_back()
    ensures { (bs : List ℕ) (f : Frame) → IsBytes bs → read bs ≡ Ok f → SpellsFrame bs f }
{}

/// No spelling of a frame is the beginning of another.
pub fn no_frame_begins_another()
    ensures { (f g : Frame) (rest : List ℕ) → HasSpelling f → HasSpelling g → spelling f ++ rest ≡ spelling g → rest ≡ [] }
{}

/// What is hashed or tagged is read back in one way: a text is of one cast, one opening, one step and list of
/// commitments, one frame or one graph, and texts of different kinds or versions differ.
pub fn texts_read_back()
    ensures casts { OneCast }
    ensures openings { OneOpening }
    ensures items { OneItem }
    ensures items_of_sessions { OneTextTo }
    ensures bodies { OneBody }
    ensures frames { OneFrame }
    ensures canonical_texts { OneCanonical }
    ensures graphs { OneGraph }
    ensures kinds { KindsDiffer }
    ensures versions { VersionsDiffer }
{}

/// What a role keeps of a session is enough: two sessions of which it keeps the same send the same frames, refuse the same
/// steps, judge frames alike while the role waits, keep the same after whatever comes, note the same, and are over alike.
pub fn kept_is_enough()
    ensures { (sha : List ℕ → List ℕ) → KeptIsEnough sha }
{}

/// What a role keeps of a session follows a walk from the start, whoever sent what it accepted. A new session follows the
/// empty walk. At its turn in an accepted graph it still does after a step of its own along an edge from its place that writes
/// what the edge writes, and then the role waits. If its transcript ends with its own last item, it still does under
/// the program of its role after a frame on which no row holds, and then the role is at its turn. At its turn the walk ends
/// at its place, and otherwise with its own last label. So at its turn in an accepted graph what an edge from its place reads is
/// written by the edge or has a kept opening, whose commitment is the current one, also after the step.
pub fn kept_follows()
    ensures { (sha : List ℕ → List ℕ) → KeptFollowsWalks sha }
{}

/// What a role holds represents each session of which it keeps the same. A new state represents a new session, which begins
/// if its role starts the graph, and otherwise waits. At its turn in an accepted graph it represents, after a step of its own
/// along an edge from its place, each such session with the step, and waits. If the transcript ends with its own last item, it
/// represents, under the program of its role and after a frame on which no row holds, each such session with the frame, at its
/// turn. The kept items afterwards are what is kept of the kept and the new ones.
pub fn states_represent()
    ensures { (sha : List ℕ → List ℕ) → StatesRepresent sha }
{}

/// The frame that a step sends to another role ends with the step's own item, with a tag for each of its targets: if
/// the last item of the transcript, if there is one, is not its own, and the written variables are the graph's, in rising order.
pub fn own_item_is_last()
    ensures { (sha : List ℕ → List ℕ) → OwnItemIsLast sha }
{}

/// Among the items shown to a role no two are of one role, and none is its own; so of items whose fields are in range a
/// role below 16 is shown at most fifteen.
pub fn shown_are_few()
    ensures once { ShownOnce }
    ensures few { ShownAreFew }
{}

/// A frame whose fields are in range and which has at most fifteen items has at most 57,028 bytes, or 53,652 in version 2.
pub fn frames_are_short()
    ensures { FramesAreShort }
{}

/// What a step sends has a spelling, at most fifteen items, and at most 57,028 bytes, or 53,652 in version 2: of a session in range
/// at its turn, along an edge from its place, before the last time, with openings in range of what the edge writes; and so in each
/// run.
pub fn sent_are_short()
    ensures by_sessions { (sha : List ℕ → List ℕ) → IsHash sha → SentAreShort sha }
    ensures in_runs { (sha : List ℕ → List ℕ) → IsHash sha → RunsSendShort sha }
{}

/// A session of any node stays in range: a new one of a sid and a cast in range and a role below 16, one that a frame with a
/// spelling joins, one after a step under a program on which no row holds, with values in range, and one after a frame of
/// its version with a spelling. So after each call in range the live sessions of a node are in range, if they were before
/// and its programs are programs, and each frame that it sends has a spelling, at most fifteen items, and at most 57,028 bytes, or
/// 53,652 in version 2.
pub fn stay_in_range()
    ensures by_sessions { (sha : List ℕ → List ℕ) → IsHash sha → SessionsStayInRange sha }
    ensures at_nodes { (sha : List ℕ → List ℕ) → IsHash sha → NodesStayInRange sha }
{}

/// Each live session of a node is sound under its program, whatever was delivered: it is in range, what is kept of it
/// follows a walk, and it ends with a frame if it is at its turn and with an own item if it waits, unless it is new.
/// So it is after each call in range, if it was before and the node's programs are programs, and after all calls of each
/// past whose answers are those of the node. Then the frame that a step sends ends with the step's own item.
pub fn live_are_sound()
    ensures by_sessions { (sha : List ℕ → List ℕ) → IsHash sha → SessionsAreSound sha }
    ensures at_nodes { (sha : List ℕ → List ℕ) → IsHash sha → NodesAreSound sha }
{}

/// A state of a role keeps its invariant: it is reachable, as it represents some sound session. So has a new state of a
/// program and a cast in range, and so has what is held after a step or a frame on which no row holds, in any session that
/// the state represents: with values in range, and with a frame of the cast's version that was read. By it what a state
/// keeps follows a walk, and at a turn what an edge from the kept place reads is written by the edge or has a kept opening,
/// whose commitment is the current one.
pub fn states_are_reachable()
    ensures { (sha : List ℕ → List ℕ) → IsHash sha → StatesAreReachable sha }
{}

/// A node's state represents each past of which it has the keys, the programs and the joins, and of whose live sessions it
/// holds what their roles keep. A new state represents the past without calls. After a call in range with the node's answer
/// it represents the past with this call, if its programs are programs, and the past's calls were in range and answered as
/// the node answers.
pub fn node_states_represent()
    ensures { (sha : List ℕ → List ℕ) → IsHash sha → NodeStatesRepresent sha }
{}

/// A program's table has a view from a label that its role sends, which keeps a waiting session live, exactly if some
/// walk from the end of that edge leads to a node of the role.
pub fn tables_show_returns()
    ensures { (sha : List ℕ → List ℕ) → TablesShowReturns sha }
{}

/// If no call was refused because there was no room, a node answers the calls of a session as a node that gets no other calls
/// would, for any hash function.
pub fn sessions_isolated()
    ensures { (sha : List ℕ → List ℕ) → SessionsAreIsolated sha }
{}

/// The answer to a call of a session depends only on the node's keys and programs, on its joins and live sessions with that
/// sid, and on how many joins and how many live sessions there are: nodes that have these alike answer it alike, and have
/// them alike afterwards. What a node has of a sid stays as it was in each call that is not of this sid.
pub fn calls_isolated()
    ensures answers { (sha : List ℕ → List ℕ) → AnswersAreOfSessions sha }
    ensures alike { (sha : List ℕ → List ℕ) → CallsKeepAlike sha }
    ensures others { (sha : List ℕ → List ℕ) → CallsLeaveOthers sha }
{}

/// No node joins a pair of session and role twice, if the pairs that it was made with differ, and no honest principal
/// of a run does, whatever holds.
pub fn none_joins()
    ensures at_nodes { (sha : List ℕ → List ℕ) → NodesJoinOnce sha }
    ensures in_runs { (sha : List ℕ → List ℕ) → NoneJoinsTwice sha }
{}

/// If no two hashed texts of a run have one digest, all events of a session are of one cast and one graph, each of the
/// role that this cast gives its principal, and so no honest principal has two roles in a session.
pub fn one_role()
    ensures one_cast { (sha : List ℕ → List ℕ) → IsHash sha → SessionsHaveOneCast sha }
    ensures one_role { (sha : List ℕ → List ℕ) → IsHash sha → NoneTakesTwoRoles sha }
{}

/// If no two hashed texts of a run have one digest, the first live session with a sid that is at its turn is the session
/// with this sid, so the node at which it stands is that session's, if it is at its turn, and there is none if it is not.
pub fn turns()
    ensures { (sha : List ℕ → List ℕ) → IsHash sha → TurnIsOfSession sha }
{}

/// If the assumptions hold, each session follows one walk.
pub fn sessions_follow()
    ensures { (sha : List ℕ → List ℕ) → IsHash sha → SessionsFollowWalks sha }
{}

/// A walk that explains a session can be made event by event. A step that was sent is added with its values. If a frame
/// was taken, let any walk from the start be given that shows the receiver the frame's view, its own last label and the
/// frame's labels and variables: of this walk's steps since the receiver's own last one, those after the last one of an honest
/// sender are added, hidden, and each value received is filled in at the last step that writes its variable. Whichever such
/// walks are given, if the assumptions hold, what is made so is one path of the session's events: for each schedule, for the
/// programs compiled from its graphs, and for each session with an event, under the graph of its first event's cast. The
/// receiver's own last label, the last that it sent in the session's events before, is the origin of the session in which its node
/// took the frame.
pub fn walks_explain()
    ensures explained { (sha : List ℕ → List ℕ) → IsHash sha → WalksExplain sha }
    ensures shown { (sha : List ℕ → List ℕ) → IsHash sha → FramesShowViews sha }
    ensures origins { (sha : List ℕ → List ℕ) → IsHash sha → OriginsAreLastLabels sha }
{}

/// Whatever the schedule: if the assumptions hold, each session follows one walk, and, whatever holds, no honest principal
/// joins a pair of session and role twice.
pub fn headline()
    ensures { (sha : List ℕ → List ℕ) → IsHash sha → Headline sha }
{}

/// The headline, with SHA-256.
pub fn headline_of_sha256()
    ensures { Headline real }
{}

/// If the assumptions hold, a receipt from an honest sender was given by bytes that this sender sent before, in that
/// session and in the role that the frame names as its sender.
pub fn receipts()
    ensures { (sha : List ℕ → List ℕ) → IsHash sha → ReceiptsHaveSends sha }
{}

/// The log of the run of a schedule's first steps is that of its run up to there, and if the assumptions hold of the run
/// they hold of that one too.
pub fn beginnings()
    ensures goes_on { (sha : List ℕ → List ℕ) → RunsGoOn sha }
    ensures premises { (sha : List ℕ → List ℕ) → PremisesHoldBefore sha }
{}

/// A run goes on by a step: the run of a schedule with one more step is the world after this step, whose number is one more
/// than that of the steps before. If each step is a craft or an honest principal's, the log has an entry for each, and
/// the entries' numbers are their indices, counted from 1. A recorded frame is found by the number that is one more than
/// there are frames before it. A step logs one entry or none, whose frame is the one that its outcome sends, if it sends
/// one, and the record's size grows by the lengths of the entry's frame and of the texts that it notes: by less than 4,194,304 bytes for a step in range.
pub fn single_steps()
    ensures goes_on { (sha : List ℕ → List ℕ) → RunsGoByStep sha }
    ensures numbered { (sha : List ℕ → List ℕ) → LogsAreNumbered sha }
    ensures framed { FramesAreNumbered }
    ensures sizes { (sha : List ℕ → List ℕ) → StepsAddEntries sha }
    ensures little { (sha : List ℕ → List ℕ) → IsHash sha → StepsAddLittle sha }
{}

/// An answer that is an event, or that refuses a variable by number, has its names in the graph of the call's session: that of the
/// starter of a start's cast, of the live session with an act's sid, or of the joining frame's cast, else of the live session
/// that the frame is for. This graph is there, and has each role, label and variable that the answer names, except for a refused
/// variable for which the call gave a value; an event has the session's sid and role. So it is at any node whose programs are
/// programs. Each entry of a run with a call is what the node of its principal's past, before the step, answers to the call, so
/// each such entry has its names so. If no two hashed texts of the run have one digest, the graph is the one that the schedule has for
/// the session's cast, and this is the cast of the sid's first event, if there is one, as for an event and a live session.
pub fn steps_are_named()
    ensures { (sha : List ℕ → List ℕ) → IsHash sha → StepsAreNamed sha }
{}

/// What breaks an assumption first is computed: there is no first forged note exactly if no tag of two honest principals was
/// forged, and no first collision exactly if no two texts have the same hash. Otherwise the note is the first that was
/// found so, step by step. Of the pairs that collide, it is the one whose later text comes first, and of these the one whose
/// earlier text comes first.
pub fn first_breaks()
    ensures forged { ForgedIsFirst }
    ensures collision { (sha : List ℕ → List ℕ) → CollisionIsFirst sha }
{}

/// If the assumptions hold, what an accepted frame shows of honest senders is the last step of each since the receiver's
/// own, up to the acceptance, and after each of these items the receiver holds the commitments that its sender held.
pub fn last_steps()
    ensures { (sha : List ℕ → List ℕ) → IsHash sha → FramesShowLastSteps sha }
{}

/// If the assumptions hold and all principals of a session are honest, a frame that a step of the session sent to a
/// principal is accepted, whatever came between: if that principal has not accepted these bytes, has not left the session
/// and shares keys with the cast, and, if the frame joins, has room to join and for a session.
pub fn delivery()
    ensures { (sha : List ℕ → List ℕ) → IsHash sha → DeliveryIsComplete sha }
{}

/// If the assumptions hold, a session in which something happened and whose principals are all honest is never stuck: no
/// edge leaves the place where its steps end, or one of its principals has abandoned it, or the principal at its turn can
/// send a step along each edge that leaves the place, with right values and while the last time has not come, or the frame
/// that was sent last in it was not taken, and is awaited by a receiver that shares keys with the cast and, if the frame
/// joins, has room.
pub fn never_stuck()
    ensures { (sha : List ℕ → List ℕ) → IsHash sha → SessionsGoOn sha }
{}

/// If the assumptions hold, some walk explains each session with an event, and whichever does, each claim that holds of the session's
/// graph is kept on it and by the events. If the claim needs, an event with a label of `later` is of a step before which a step with
/// a label of `earlier` was taken, with none of `since` between, and what honest roles had to do with that step, its sending and its
/// receipt with its values, they did before the event; and since the step of an event with a label of `since` it has such a step of
/// its own. If it bars, an event with a label of `earlier` comes before one of another step with a label of `later` only if a step with one of `since`
/// was taken between. An event stands at no more than one step of a walk.
pub fn claims_are_kept()
    ensures kept { (sha : List ℕ → List ℕ) → IsHash sha → ClaimsAreKept sha }
    ensures once { EventsOccurOnce }
{}

/// A principal that is stopped and begun anew over its joins is as one that has abandoned each of its live sessions, in their
/// order: its node is the one after these calls, each is answered with Abandoned, the joins are those of before, and no
/// session is live. So each run with restarts is, but for abandonments, that of a schedule in which each restart is replaced by
/// an abandonment of each session that it drops: with the same entries besides, in the same order, with the same numbers,
/// answers, frames and notes. Without restarts it is the run of the schedule with these steps.
pub fn restarts_abandon()
    ensures at_nodes { (sha : List ℕ → List ℕ) → RestartsAbandon sha }
    ensures alone { (sha : List ℕ → List ℕ) → NoRestartsNoChange sha }
    ensures in_runs { (sha : List ℕ → List ℕ) → IsHash sha → RestartsAreAbandonments sha }
{}

/// In all its lives together, of which each but the first is begun over the joins that the one before left, a principal joins
/// no pair of session and role twice, nor one that it began with; its keys and programs may change between its lives. So, wherever
/// its lives were cut off, what it printed of them has no two joins of one pair.
pub fn lives_join_once()
    ensures whole { (sha : List ℕ → List ℕ) → LivesJoinOnce sha }
    ensures reported { (sha : List ℕ → List ℕ) → ReportedJoinOnce sha }
{}

/// The headline over restarts: if the assumptions hold of a run with restarts, each session follows one walk, and,
/// whatever holds, no honest principal joins a pair of session and role twice in its whole life, restarts included.
pub fn headline_over_restarts()
    ensures of_any { (sha : List ℕ → List ℕ) → IsHash sha → HeadlineOverRestarts sha }
    ensures of_sha256 { HeadlineOverRestarts real }
{}

/// What else holds over restarts: a receipt from an honest sender was given by bytes that this sender sent before; all events
/// of a session are of one cast and one graph, and no honest principal has two roles in a session, though a restart lay between;
/// and an accepted frame shows the last step of each honest sender, and the receiver holds the commitments that its sender held.
pub fn laws_over_restarts()
    ensures receipts { (sha : List ℕ → List ℕ) → IsHash sha → ReceiptsHaveSendsOverRestarts sha }
    ensures one_cast { (sha : List ℕ → List ℕ) → IsHash sha → SessionsHaveOneCastOverRestarts sha }
    ensures one_role { (sha : List ℕ → List ℕ) → IsHash sha → NoneTakesTwoRolesOverRestarts sha }
    ensures last_steps { (sha : List ℕ → List ℕ) → IsHash sha → FramesShowLastStepsOverRestarts sha }
{}
