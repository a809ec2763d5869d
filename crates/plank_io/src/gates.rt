/// What a worker passes before each method run. A gate answers nothing, and no contract speaks of
/// it: it lets a test hold the workers in an order of its own.
pub trait Gate: Sync {
    /// Called by each worker with its number and with its turn, both from 1.
    fn pass(&self, worker: u32, turn: u64);
}

/// The gate that every worker passes at once.
#[derive(Clone, Copy, Debug)]
pub struct OpenGate;

impl Gate for OpenGate {
    fn pass(&self, _worker: u32, _turn: u64) {}
}
