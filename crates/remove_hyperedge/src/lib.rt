// Removing a hyperedge.
#![tactic(auto)]

ghost use Rattle.std.specs.Prelude.{◌≡◌, ◌++◌, ◌*◌, ◌-◌, ◌<◌, ◌≤◌, length, set, take, drop};
ghost use Rattle.lists.specs.Inner.{shifted};
ghost use Rattle.layout.specs.Layout.{limit, hyperedge_limit, record_size, hyperedges_at, size, read};
ghost use Rattle.layout.specs.Inner.{Formed};
ghost use Rattle.layout.specs.Answers.{on_formed, result_of};
ghost use Rattle.edits.specs.Results.{remove_hyperedge_result};

use edits::shift::shift_down;
use layout::{Answer, HyperedgeIndex, Refusal};

// Takes out record j of the m hyperedge records.
fn drop_hyperedge(t: &mut [u32], j: usize, m: usize)
    requires { (length t.old ≡ size limit) × ((j < m) × (m ≤ hyperedge_limit)) }
    ensures { t.new ≡ set (take hyperedges_at t.old ++ shifted (drop hyperedges_at t.old) (j * record_size limit) (record_size limit)) 3 (m - 1) }
{
    let a = j * layout::RECORD_SIZE;
    shift_down(&mut t[layout::HYPEREDGES_AT..], a, layout::RECORD_SIZE);
    t[3] = (m - 1) as u32;
}

// The removal, of a well-formed table.
fn remove_formed(t: &mut [u32], e: HyperedgeIndex) -> Answer
    requires { Formed limit t.old }
    ensures { result_of result t.new ≡ remove_hyperedge_result e.0 t.old (read limit t.old) }
{
    let j = find::find_hyperedge(t, e).ok_or(Refusal::HyperedgeNotLive(e))?;
    let m = layout::hyperedge_count(t);
    drop_hyperedge(t, j, m);
    Ok(0)
}

pub fn remove_hyperedge(t: &mut [u32], e: HyperedgeIndex) -> Answer
    ensures { result_of result t.new ≡ on_formed t.old t.old (remove_hyperedge_result e.0 t.old) }
{
    if !well_formed::well_formed(t) {
        return Err(Refusal::NotWellFormed);
    }
    remove_formed(t, e)
}
