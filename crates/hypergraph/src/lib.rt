// The whole table: cleared, and judged empty.
#![tactic(auto)]

ghost use Rattle.std.specs.Prelude.{◌≡◌, []};
ghost use Rattle.layout.specs.Answers.{on_formed, result_of};
ghost use Rattle.edits.specs.Results.{clear_result, empty_result};

use edits::records::store_zeros;
use layout::{Answer, Refusal};

// Zeroes every word.
pub fn clear(t: &mut [u32]) -> Answer
    ensures { result_of result t.new ≡ clear_result t.old }
{
    if t.len() != layout::SIZE {
        return Err(Refusal::NotWellFormed);
    }
    store_zeros(t, 0, layout::SIZE);
    Ok(0)
}

// Whether no vertex is live: then no hyperedge is either.
pub fn is_empty(t: &[u32]) -> Answer
    ensures { result_of result [] ≡ on_formed t.now [] empty_result }
{
    if !well_formed::well_formed(t) {
        return Err(Refusal::NotWellFormed);
    }
    if layout::vertex_count(t) == 0 {
        return Ok(1);
    }
    Ok(0)
}
