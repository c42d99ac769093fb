//! What a generated run comes to.
use sg_sched::Schedule;
use sg_world::World;

/// A generated run.
#[derive(Drop)]
pub struct Driven<'p> {
    /// What is declared, and the steps.
    pub schedule: Schedule,
    /// The replay of the steps.
    pub world: World<'p>,
    /// How many frames were taken out and lost.
    pub lost: u32,
}
