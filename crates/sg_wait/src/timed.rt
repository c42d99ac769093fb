//! Links that can wait with a limit of time, as a trait.
//!
//! As with every link the count of faults never falls, and a call answers `Failed` only if it rose in that call. What is to come is
//! known of a link in memory and not of one of the system, so the clauses on it speak of what is known. The calls of `Link` say nothing
//! of it.
ghost use Rattle.std.specs.Prelude.{◌≡◌, ◌<◌, ◌≤◌, ℕ, List, [], ◌∷◌, Option, Some, is_some, length, OnOk, OnErr, IfOk};
ghost use Rattle.std.specs.Option.{option_map};
ghost use Rattle.sg_model.specs.Limits.{most_frame_bytes};
ghost use Rattle.sg_base.specs.Outside.{HasRisen, Appends};
ghost use Rattle.sg_wait.specs.Waiting.{Coming, received};

use sg_base::{Addr, Failed, Link, LinkFault};
use std::alloc::Global;

/// A link that can wait with a limit of time.
pub trait TimedLink: Link {
    /// What is to come, deliveries and silences, if it is known.
    ghost coming: { Self → Option (List Coming) };

    /// Waits at an address from now on. If it fails, it waits where it did before.
    fn open_at(&mut self, at: Addr) -> Result<(), Failed>
        ensures never_falls { Self.faults self.old ≤ Self.faults self.new }
        ensures failed { OnErr result (HasRisen (Self.faults self.old) (Self.faults self.new)) }
        ensures waits { OnOk result (Self.bound self.new ≡ Some at) }
        ensures kept_bound { OnErr result (Self.bound self.new ≡ Self.bound self.old) }
        ensures kept { coming self.new ≡ coming self.old }
        ensures kept_sent { Self.sent self.new ≡ Self.sent self.old };

    /// The next delivery. With a limit, in milliseconds, it is `None` if none came in that time, and also if none is to come;
    /// without a limit it waits until there is one, and is `None` only if none is to come.
    fn recv_within(
        &mut self,
        alloc: Global,
        within: Option<u32>,
    ) -> Result<Option<Vec<u8>>, LinkFault>
        ensures never_falls { Self.faults self.old ≤ Self.faults self.new }
        ensures failed { result ≡ Err LinkFault.Failed → HasRisen (Self.faults self.old) (Self.faults self.new) }
        ensures kept_bound { Self.bound self.new ≡ Self.bound self.old }
        ensures kept_sent { Self.sent self.new ≡ Self.sent self.old }

        // What each answer says of what is to come.
        ensures found { IfOk result (λ found. (all : List Coming) → coming self.old ≡ Some all →
            option_map (λ bytes. bytes.items) found ≡ (received (is_some within) all).0) }
        ensures taken { OnOk result ((all : List Coming) → coming self.old ≡ Some all →
            coming self.new ≡ Some (received (is_some within) all).1) }
        ensures kept { OnErr result (coming self.new ≡ coming self.old) };

    /// Sends the bytes of a frame to an address.
    fn post(&mut self, to: Addr, frame: &[u8]) -> Result<(), Failed>
        requires some { 0 < length frame.now }
        requires fits { length frame.now ≤ most_frame_bytes }
        ensures never_falls { Self.faults self.old ≤ Self.faults self.new }
        ensures failed { OnErr result (HasRisen (Self.faults self.old) (Self.faults self.new)) }
        ensures kept_bound { Self.bound self.new ≡ Self.bound self.old }
        ensures kept { coming self.new ≡ coming self.old }
        ensures posted { OnOk result (Appends (Self.sent self.old) (Self.sent self.new) ((to, frame.now) ∷ [])) }
        ensures kept_sent { OnErr result (Self.sent self.new ≡ Self.sent self.old) };
}
