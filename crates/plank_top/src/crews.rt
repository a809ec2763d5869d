ghost use Rattle.std.specs.Prelude.{◌<◌, ◌≤◌};

/// Those who judge: how many workers, where their threads come from, and the gate that each passes before it
/// runs a method.
#[derive(Drop)]
pub struct Crew<'a, R, G> {
    pub rt: &'a R,
    pub workers: u32,
    pub gate: &'a G,
    pub ghost some: { 0 < workers },
    pub ghost few: { workers ≤ 64 },
}
