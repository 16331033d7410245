// The sort, and whether there is one.
#![tactic(auto)]

ghost use Rattle.std.specs.Prelude.{◌≡◌, []};
ghost use Rattle.layout.specs.Layout.{limit, read};
ghost use Rattle.layout.specs.Inner.{Formed};
ghost use Rattle.layout.specs.Answers.{result_of, on_formed};
ghost use Rattle.structural.specs.Sort.{sort_result, acyclic_result};
ghost use Rattle.structural.specs.Sorted.{SortedRecords};

use layout::{Answer, Refusal};

// The sort by record, in the first places of `order`, and true; or false, where steps form a closed walk.
fn sort_records(t: &[u32], order: &mut [u32; 256]) -> bool
    requires { Formed limit t.now }
    ensures { SortedRecords t.now result order.new }
{
    let n = layout::vertex_count(t);
    let mut m = [0u8; 65536];
    steps::step_matrix(t, &mut m);
    order::sort(&m, n, order)
}

fn sorted(t: &[u32], out: &mut [u32]) -> Answer
    requires { Formed limit t.now }
    ensures { result_of result out.new ≡ sort_result out.old (read limit t.now) }
{
    let mut order = [0u32; 256];
    let found = sort_records(t, &mut order);
    let n = layout::vertex_count(t);
    if !found {
        return Err(Refusal::ClosedWalk);
    }
    steps::list_records(t, &order, n, out)
}

// Lists the live vertices in the smallest order in which every step goes forward.
pub fn topological_sort(t: &[u32], out: &mut [u32]) -> Answer
    ensures { result_of result out.new ≡ on_formed t.now out.old (sort_result out.old) }
{
    if !well_formed::well_formed(t) {
        return Err(Refusal::NotWellFormed);
    }
    sorted(t, out)
}

fn acyclic(t: &[u32]) -> Answer
    requires { Formed limit t.now }
    ensures { result_of result [] ≡ acyclic_result (read limit t.now) }
{
    let mut order = [0u32; 256];
    if sort_records(t, &mut order) {
        return Ok(1);
    }
    Ok(0)
}

// Whether no steps form a closed walk: 1 or 0.
pub fn is_acyclic(t: &[u32]) -> Answer
    ensures { result_of result [] ≡ on_formed t.now [] acyclic_result }
{
    if !well_formed::well_formed(t) {
        return Err(Refusal::NotWellFormed);
    }
    acyclic(t)
}
