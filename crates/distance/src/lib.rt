// The nearest open number, by blocks with a least key.
#![tactic(auto)]

pub mod blocks;

// Whether there is a walk; its steps, and the total of their costs.
#[derive(Clone, Copy)]
pub struct Walked {
    pub ok: bool,
    pub steps: usize,
    pub cost: u64,
}
