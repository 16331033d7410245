// Vertices by weight.
#![tactic(auto)]

ghost use Rattle.std.specs.Prelude.{◌≡◌, [], ℕ, ◌<◌};
ghost use Rattle.layout.specs.Layout.{limit, vertex_count, read};
ghost use Rattle.layout.specs.Inner.{Formed};
ghost use Rattle.layout.specs.Answers.{result_of, on_formed};
ghost use Rattle.marks.specs.Marks.{is_marked};
ghost use Rattle.lookups.specs.Lookups.{has_vertex_weighing};
ghost use Rattle.lookups.specs.State.{weighs_at};
ghost use Rattle.lookups.specs.Results.{contains_result, vertex_index_result};

use layout::{Answer, Refusal};

// Marks the records of a weight among the n live vertices.
fn mark_weighing(t: &[u32], n: usize, weight: u32) -> [bool; 256]
    requires formed { Formed limit t.now }
    requires n_value { n ≡ vertex_count t.now }
    ensures { ((k : ℕ) → k < n → is_marked result k ≡ weighs_at weight t.now k) }
{
    let mut marks = [false; 256];
    for k in 0..n {
        marks[k] = layout::vertex_weight(t, k) == weight;
    }
    marks
}

fn list_weighing(t: &[u32], weight: u32, out: &mut [u32]) -> Answer
    requires { Formed limit t.now }
    ensures { result_of result out.new ≡ vertex_index_result weight out.old (read limit t.now) }
{
    let n = layout::vertex_count(t);
    let marks = mark_weighing(t, n, weight);
    marks::list_marked(t, &marks, out)
}

// The vertices of a weight.
pub fn get_vertex_index(t: &[u32], weight: u32, out: &mut [u32]) -> Answer
    ensures { result_of result out.new ≡ on_formed t.now out.old (vertex_index_result weight out.old) }
{
    if !well_formed::well_formed(t) {
        return Err(Refusal::NotWellFormed);
    }
    list_weighing(t, weight, out)
}

fn has_weight(t: &[u32], weight: u32) -> bool
    requires { Formed limit t.now }
    ensures { result ≡ has_vertex_weighing weight (read limit t.now) }
{
    let n = layout::vertex_count(t);
    for k in 0..n {
        if layout::vertex_weight(t, k) == weight {
            return true;
        }
    }
    false
}

fn contains_formed(t: &[u32], weight: u32) -> Answer
    requires { Formed limit t.now }
    ensures { result_of result [] ≡ contains_result weight (read limit t.now) }
{
    if has_weight(t, weight) {
        return Ok(1);
    }
    Ok(0)
}

// Whether a vertex has the weight.
pub fn contains_vertex(t: &[u32], weight: u32) -> Answer
    ensures { result_of result [] ≡ on_formed t.now [] (contains_result weight) }
{
    if !well_formed::well_formed(t) {
        return Err(Refusal::NotWellFormed);
    }
    contains_formed(t, weight)
}
