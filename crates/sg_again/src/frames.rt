//! The last frames of sessions.
ghost use Rattle.std.specs.Prelude.{◌≡◌, ℕ, ◌<◌, ◌∷◌, List, length, false, not, Some, None, bytes_eq, if◌then◌else◌, OnErr, OnOk};
ghost use Rattle.std.specs.Map.{lookup};
ghost use Rattle.std.specs.Option.{option_copied, option_map_or};
ghost use Rattle.sg_again.specs.LastFrames.{KeptFrame, no_frames, sent, ended, frame_of};

use crate::LastFrame;
use crate::entry::FrameEntry;
use indexmap::IndexMap;
use sg_base::{OutOfMemory, Sid};
use std::alloc::Global;
use std::collections::VecDeque;
use std::marker::Model;

// The greatest number of frames of sessions that are live no more.
const MOST_OVER: usize = 4_096;

/// The last frame of each live session, and those of the 4,096 other sessions that ended last. A clause sees them as a map from sids to
/// frames, each with whether its session is live, and the list of the sessions in it that are live no more, in the order in which they
/// ended.
#[derive(Drop)]
pub struct LastFrames {
    frames: IndexMap<Sid, FrameEntry>,
    over: VecDeque<Sid>,
}

impl Model for LastFrames {
    ghost use Rattle.std.specs.Prelude.{ℕ, List, refl};
    ghost use Rattle.std.specs.Coded.{code_by, coded×, coded_list, coded_ℕ};
    ghost use Rattle.std.specs.FinMap.{code, from_entries};
    ghost use Rattle.sg_again.specs.LastFrames.{Frames, LastFrames as Kept};
    ghost use Rattle.sg_again.specs.contracts.entry.FrameEntry.{the_row};

    ghost Value = { Kept };

    ghost coded = { code_by (Frames × List (List ℕ)) (coded× (code (coded_list coded_ℕ) the_row.coded) (coded_list (coded_list coded_ℕ)))
        (λ l. (l.frames, l.over)) (λ p. record { frames = p.0; over = p.1 }) (λ _. refl) };

    ghost view = { λ l. record { frames = from_entries l.frames.entries; over = l.over.items } };
}

impl LastFrames {
    /// No frames. It takes no memory.
    pub fn new(alloc: Global) -> LastFrames
        ensures { result ≡ no_frames }
    {
        LastFrames {
            frames: IndexMap::new(alloc),
            over: VecDeque::new(alloc),
        }
    }

    /// A session sent a frame: it takes the place of the session's earlier one. A session that has ended is live no more, whatever it
    /// sends. If memory runs out, all is as before.
    pub fn sent(&mut self, sid: Sid, frame: LastFrame) -> Result<(), OutOfMemory>
        ensures ok { OnOk result (self.new ≡ sent self.old sid frame) }
        ensures err { OnErr result (self.new ≡ self.old) }
    {
        let live = !is_over(&self.frames, &sid);
        put_frame(&mut self.frames, sid, FrameEntry::new(frame, live))?;
        Ok(())
    }

    /// A session is live no more. Its frame, if one is kept, stays among those of the 4,096 such sessions that ended last. If memory runs
    /// out, all is as before.
    pub fn ended(&mut self, sid: &Sid) -> Result<(), OutOfMemory>
        ensures ok { OnOk result (self.new ≡ ended self.old sid.now) }
        ensures err { OnErr result (self.new ≡ self.old) }
    {
        if !is_live(&self.frames, sid) {
            return Ok(());
        }
        self.over.push_back(*sid)?;
        end_at(&mut self.frames, sid);
        if self.over.len() > MOST_OVER {
            let_first_go(&mut self.frames, &mut self.over);
        }
        Ok(())
    }

    /// The last frame of a session, if it is kept. It takes no memory.
    pub fn of(&self, sid: &Sid) -> Option<&LastFrame>
        ensures { option_copied result ≡ frame_of self.now sid.now }
    {
        match self.frames.get(sid) {
            Some(kept) => Some(kept.frame()),
            None => None,
        }
    }
}

// A frame of the session is kept, and it is live.
fn is_live(frames: &IndexMap<Sid, FrameEntry>, sid: &Sid) -> bool
    ensures { result ≡ option_map_or (λ k. k.live) (lookup (bytes_eq sid.now) frames.now.entries) false }
{
    match frames.get(sid) {
        Some(kept) => kept.is_live(),
        None => false,
    }
}

// A frame of the session is kept, and it is live no more.
fn is_over(frames: &IndexMap<Sid, FrameEntry>, sid: &Sid) -> bool
    ensures { result ≡ option_map_or (λ k. not k.live) (lookup (bytes_eq sid.now) frames.now.entries) false }
{
    match frames.get(sid) {
        Some(kept) => !kept.is_live(),
        None => false,
    }
}

// Puts the frame of a session in the place of its earlier one.
fn put_frame(
    frames: &mut IndexMap<Sid, FrameEntry>,
    sid: Sid,
    kept: FrameEntry,
) -> Result<(), OutOfMemory>
    ensures ok { OnOk result ((q : List ℕ) → lookup (bytes_eq q) frames.new.entries ≡ (if bytes_eq sid q then Some kept else lookup (bytes_eq q) frames.old.entries)) }
    ensures err { OnErr result (frames.new.entries ≡ frames.old.entries) }
{
    frames.insert(sid, kept)?;
    Ok(())
}

// Says of what is kept of a session that it is live no more.
fn end_at(frames: &mut IndexMap<Sid, FrameEntry>, sid: &Sid)
    ensures { (k : KeptFrame) → lookup (bytes_eq sid.now) frames.old.entries ≡ Some k
        → (q : List ℕ) → lookup (bytes_eq q) frames.new.entries ≡ (if bytes_eq sid.now q then Some (record { frame = k.frame; live = false }) else lookup (bytes_eq q) frames.old.entries) }
{
    if let Some(kept) = frames.get_mut(sid) {
        kept.end();
    }
}

// The session that ended first leaves, with its frame.
fn let_first_go(frames: &mut IndexMap<Sid, FrameEntry>, over: &mut VecDeque<Sid>)
    requires { 0 < length over.old.items }
    ensures { (sid : List ℕ) (sids : List (List ℕ)) → over.old.items ≡ sid ∷ sids
        → (over.new.items ≡ sids) × ((q : List ℕ) → lookup (bytes_eq q) frames.new.entries ≡ (if bytes_eq sid q then None else lookup (bytes_eq q) frames.old.entries)) }
{
    if let Some(first) = over.pop_front() {
        frames.swap_remove(&first);
    }
}
