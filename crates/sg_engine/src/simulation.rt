//! What a run works with.
use crate::actor_call::ActorCall;
use crate::buffer::Buffer;
use sg_actor::{Actor, Seat};
use sg_kernel::Kernel;
use sg_script::Script;

/// The slots of all actors, the remaining contexts, the kernel, the script's reader, the calls that aren't answered
/// yet, and the lines that aren't written yet.
#[derive(Drop)]
pub struct Simulation<A = Box<dyn Actor + Send>> {
    pub seats: Vec<Seat<A>>,
    /// Its last one is the next.
    pub crew: Vec<A>,
    pub kernel: Kernel,
    pub script: Script,
    pub calls: Vec<ActorCall>,
    pub buffer: Buffer,
}
