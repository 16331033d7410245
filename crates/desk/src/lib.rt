// The release desk: the states of a vertex. What the desk is stands in the specs, and its laws in the proofs.
#![tactic(auto)]

pub const WAITING: u32 = 0;

pub const REVIEWED: u32 = 1;

pub const RELEASED: u32 = 2;
