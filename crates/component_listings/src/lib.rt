// Whether a table is connected, its components and its closure.
#![tactic(auto)]

ghost use Rattle.std.specs.Prelude.{◌≡◌, [], ◌≤◌};
ghost use Rattle.lists.specs.Tests.{bit, every};
ghost use Rattle.layout.specs.Layout.{limit, vertex_limit, read};
ghost use Rattle.layout.specs.Inner.{Formed};
ghost use Rattle.layout.specs.Answers.{result_of, on_formed};
ghost use Rattle.components.specs.Parts.{flagged};
ghost use Rattle.structural.specs.Components.{connected_result, connected_components_result, strong_components_result};
ghost use Rattle.structural.specs.Closure.{closure_result};

use layout::{Answer, Refusal};

// Whether every record has a mark: 1 or 0.
fn all_marked(marks: &[u8; 256], n: usize) -> usize
    requires { n ≤ vertex_limit }
    ensures { result ≡ bit (every (flagged marks.now) n) }
{
    for v in 0..n {
        if marks[v] != 1 {
            return 0;
        }
    }
    1
}

fn connected(t: &[u32]) -> Answer
    requires { Formed limit t.now }
    ensures { result_of result [] ≡ connected_result (read limit t.now) }
{
    let n = layout::vertex_count(t);
    if n == 0 {
        return Ok(1);
    }
    let mut m = [0u8; 65536];
    steps::link_matrix(t, &mut m);
    let mut marks = [0u8; 256];
    graph::marks_from(&m, n, 0, &mut marks);
    Ok(all_marked(&marks, n))
}

// Whether the table is empty, or all vertices are linked through co-membership: 1 or 0.
pub fn is_connected(t: &[u32]) -> Answer
    ensures { result_of result [] ≡ on_formed t.now [] connected_result }
{
    if !well_formed::well_formed(t) {
        return Err(Refusal::NotWellFormed);
    }
    connected(t)
}

fn list_connected(t: &[u32], out: &mut [u32]) -> Answer
    requires { Formed limit t.now }
    ensures { result_of result out.new ≡ connected_components_result out.old (read limit t.now) }
{
    let n = layout::vertex_count(t);
    let mut m = [0u8; 65536];
    steps::link_matrix(t, &mut m);
    let mut ids = [0u32; 256];
    let c = components::part_linked(&m, n, &mut ids);
    components::list_classes(t, &ids, n, c, out)
}

// Lists the connected components, ordered by smallest member, each as its length and its members.
pub fn connected_components(t: &[u32], out: &mut [u32]) -> Answer
    ensures { result_of result out.new ≡ on_formed t.now out.old (connected_components_result out.old) }
{
    if !well_formed::well_formed(t) {
        return Err(Refusal::NotWellFormed);
    }
    list_connected(t, out)
}

fn list_strong(t: &[u32], out: &mut [u32]) -> Answer
    requires { Formed limit t.now }
    ensures { result_of result out.new ≡ strong_components_result out.old (read limit t.now) }
{
    let n = layout::vertex_count(t);
    let mut m = [0u8; 65536];
    steps::step_matrix(t, &mut m);
    let mut back = [0u8; 65536];
    steps::turned_matrix(t, &mut back);
    let mut ids = [0u32; 256];
    let c = strong::part_strong(&m, &back, n, &mut ids);
    components::list_classes(t, &ids, n, c, out)
}

// Lists the strong components, latest-finished vertex first, each as its length and its members.
pub fn strongly_connected_components(t: &[u32], out: &mut [u32]) -> Answer
    ensures { result_of result out.new ≡ on_formed t.now out.old (strong_components_result out.old) }
{
    if !well_formed::well_formed(t) {
        return Err(Refusal::NotWellFormed);
    }
    list_strong(t, out)
}

fn list_closure(t: &[u32], out: &mut [u32]) -> Answer
    requires { Formed limit t.now }
    ensures { result_of result out.new ≡ closure_result out.old (read limit t.now) }
{
    let n = layout::vertex_count(t);
    let mut m = [0u8; 65536];
    steps::step_matrix(t, &mut m);
    let mut c = [0u8; 65536];
    closure::close(&m, n, &mut c);
    closure::list_pairs(t, &c, n, out)
}

// Lists the pairs x, y with x not y and y reachable from x, sorted, two words each.
pub fn get_transitive_closure(t: &[u32], out: &mut [u32]) -> Answer
    ensures { result_of result out.new ≡ on_formed t.now out.old (closure_result out.old) }
{
    if !well_formed::well_formed(t) {
        return Err(Refusal::NotWellFormed);
    }
    list_closure(t, out)
}
