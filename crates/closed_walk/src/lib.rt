// A closed walk of the table, to be named where the sort is refused.
#![tactic(auto)]

ghost use Rattle.std.specs.Prelude.{◌≡◌};
ghost use Rattle.layout.specs.Layout.{limit, vertex_count, read};
ghost use Rattle.layout.specs.Inner.{Formed};
ghost use Rattle.layout.specs.Answers.{result_of, on_formed};
ghost use Rattle.steps.specs.Matrices.{steps_between};
ghost use Rattle.steps.specs.Ordered.{Ordered};
ghost use Rattle.rings.specs.Search.{ring_of};
ghost use Rattle.closed_walk.specs.Named.{closed_walk_result};

use layout::{Answer, Refusal};

// The closed walk by record, in the first places of `order`.
fn walk_records(t: &[u32], order: &mut [u32; 256]) -> usize
    requires { Formed limit t.now }
    ensures { Ordered (vertex_count t.now) result order.new (ring_of (steps_between (read limit t.now)) (vertex_count t.now)) }
{
    let n = layout::vertex_count(t);
    let mut m = [0u8; 65536];
    steps::step_matrix(t, &mut m);
    rings::find_ring(&m, n, order)
}

fn list_walk(t: &[u32], out: &mut [u32]) -> Answer
    requires { Formed limit t.now }
    ensures { result_of result out.new ≡ closed_walk_result out.old (read limit t.now) }
{
    let mut order = [0u32; 256];
    let c = walk_records(t, &mut order);
    steps::list_records(t, &order, c, out)
}

// Lists the vertices of a closed walk, each once: each has a step to the next, and the last to the first. None where there is none.
pub fn closed_walk(t: &[u32], out: &mut [u32]) -> Answer
    ensures { result_of result out.new ≡ on_formed t.now out.old (closed_walk_result out.old) }
{
    if !well_formed::well_formed(t) {
        return Err(Refusal::NotWellFormed);
    }
    list_walk(t, out)
}
