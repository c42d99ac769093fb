//! Where bytes come in, as a trait.
//!
//! The count of faults never falls, and a call answers `Failed` only if it rose in that call. What is to come is known of the input in
//! memory and not of those of the system, so the clauses on it speak of what is known.
ghost use Rattle.std.specs.Prelude.{◌≡◌, ◌<◌, ◌≤◌, ℕ, List, [], Option, Some, Ok, take, drop, length, OnErr, IfOk};
ghost use Rattle.std.specs.Option.{option_map};
ghost use Rattle.sg_base.specs.Outside.{HasRisen};
ghost use Rattle.sg_input.specs.Input.{BeginsWith};

use sg_base::Failed;

/// Where bytes come in.
pub trait Input {
    /// How often a call failed.
    ghost faults: { Self → ℕ };

    /// The bytes to come, if they are known.
    ghost coming: { Self → Option (List ℕ) };

    /// Reads the first of the bytes to come into the front of a room, and gives their number, which is 0 at the end of all alone. The
    /// rest of the room may have any bytes then.
    fn read(&mut self, room: &mut [u8]) -> Result<usize, Failed>
        requires { 0 < length room.old }
        ensures never_falls { faults self.old ≤ faults self.new }
        ensures failed { OnErr result (HasRisen (faults self.old) (faults self.new)) }
        ensures fits { IfOk result (λ count. count ≤ length room.new) }

        // What each answer says of the bytes to come, if they are known.
        ensures first { IfOk result (λ count. BeginsWith (coming self.old) (take count room.new)) }
        ensures taken { IfOk result (λ count. coming self.new ≡ option_map (drop count) (coming self.old)) }
        ensures at_end { result ≡ Ok 0 → (all : List ℕ) → coming self.old ≡ Some all → all ≡ [] }
        ensures kept { OnErr result (coming self.new ≡ coming self.old) };
}
