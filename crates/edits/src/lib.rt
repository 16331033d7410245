// What the edits share: stores in a record, and words moved down.
#![tactic(auto)]

pub mod records;
pub mod shift;
