//! When a craft's frame can be made.
ghost use Rattle.std.specs.Prelude.{◌≡◌, Some};
ghost use Rattle.sg_protocol.specs.Crafted.{crafted};
ghost use Rattle.sg_protocol.specs.IsSchedule.{IsStep};
ghost use Rattle.sg_protocol.specs.Schedule.{Craft, CraftStep, Schedule};
ghost use Rattle.sg_protocol.specs.Texts.{real};
ghost use Rattle.sg_protocol.specs.World.{World};
ghost use Rattle.sg_craft.specs.Means.{Means, AreMeans, CanBeMade, frame_by};

/// What a craft makes in a run is what it makes by its means there, and each craft of a schedule can be made.
pub fn crafts_can_be_made()
    ensures made { (m : Means) (c : Craft) (s : Schedule) (w : World) → AreMeans m c s w → crafted real s w c ≡ Some (frame_by m c) }
    ensures can { (m : Means) (c : Craft) (s : Schedule) (w : World) → AreMeans m c s w → IsStep real s (CraftStep c) → CanBeMade m c }
{}
