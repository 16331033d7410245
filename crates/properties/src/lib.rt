// Properties of a whole table: uniform size, orphan hyperedges, cut vertices.
#![tactic(auto)]

ghost use Rattle.std.specs.Prelude.{◌≡◌, []};
ghost use Rattle.layout.specs.Layout.{limit, read};
ghost use Rattle.layout.specs.Inner.{Formed};
ghost use Rattle.layout.specs.Answers.{result_of, on_formed};
ghost use Rattle.cut.specs.Cut.{cut_vertices_result};
ghost use Rattle.properties.specs.Properties.{uniform};
ghost use Rattle.properties.specs.Results.{orphan_hyperedges_result, uniform_result};

use layout::{Answer, Refusal};

// The hyperedges without members: a well-formed table has none.
pub fn get_orphan_hyperedges(t: &[u32], out: &mut [u32]) -> Answer
    ensures { result_of result out.new ≡ on_formed t.now out.old (orphan_hyperedges_result out.old) }
{
    if !well_formed::well_formed(t) {
        return Err(Refusal::NotWellFormed);
    }
    Ok(0)
}

// Every hyperedge has k members.
fn uniform(t: &[u32], k: usize) -> bool
    requires { Formed limit t.now }
    ensures { result ≡ uniform k (read limit t.now) }
{
    let m = layout::hyperedge_count(t);
    for j in 0..m {
        if layout::member_count(t, j) != k {
            return false;
        }
    }
    true
}

fn uniform_answer(t: &[u32], k: usize) -> Answer
    requires { Formed limit t.now }
    ensures { result_of result [] ≡ uniform_result k (read limit t.now) }
{
    if uniform(t, k) {
        return Ok(1);
    }
    Ok(0)
}

// Whether every hyperedge has k members, repeats counted.
pub fn is_k_uniform(t: &[u32], k: usize) -> Answer
    ensures { result_of result [] ≡ on_formed t.now [] (uniform_result k) }
{
    if !well_formed::well_formed(t) {
        return Err(Refusal::NotWellFormed);
    }
    uniform_answer(t, k)
}

// The vertices without which two others, linked through co-membership, no longer are.
pub fn find_cut_vertices(t: &[u32], out: &mut [u32]) -> Answer
    ensures { result_of result out.new ≡ on_formed t.now out.old (cut_vertices_result out.old) }
{
    if !well_formed::well_formed(t) {
        return Err(Refusal::NotWellFormed);
    }
    cut_vertices::cut_vertices_formed(t, out)
}
