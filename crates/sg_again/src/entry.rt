//! A frame that is kept.
ghost use Rattle.std.specs.Prelude.{◌≡◌, false};
ghost use Rattle.sg_again.specs.LastFrames.{KeptFrame};

use crate::LastFrame;
use std::marker::Model;

// A session's last frame, and whether the session is live.
#[derive(Drop)]
pub(crate) struct FrameEntry {
    frame: LastFrame,
    live: bool,
}

impl Model for FrameEntry {
    ghost use Rattle.sg_again.specs.LastFrames.{KeptFrame};

    ghost Value = { KeptFrame };

    ghost view = { λ k. record { frame = k.frame; live = k.live } };
}

impl FrameEntry {
    // A frame of a session that is live, or isn't.
    pub fn new(frame: LastFrame, live: bool) -> FrameEntry
        ensures { result ≡ record { frame = frame; live = live } }
    {
        FrameEntry { frame, live }
    }

    // Says that the session is live no more.
    pub fn end(&mut self)
        ensures { self.new ≡ record { frame = self.old.frame; live = false } }
    {
        self.live = false;
    }

    // The frame.
    pub fn frame(&self) -> &LastFrame
        ensures { result.now ≡ self.now.frame }
    {
        &self.frame
    }

    // The session is live.
    pub fn is_live(&self) -> bool
        ensures { result ≡ self.now.live }
    {
        self.live
    }
}
