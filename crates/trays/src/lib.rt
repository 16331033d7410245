// Trays: lists of records, each a kind and a number.
#![tactic(auto)]

// The kinds of a record.
pub const VERTEX_KIND: u32 = 0;

pub const HYPEREDGE_KIND: u32 = 1;

// A record of a tray: what is to be withdrawn.
#[repr(C)]
#[derive(Clone, Copy)]
pub struct Withdrawal {
    pub kind: u32,
    pub number: u32,
}
