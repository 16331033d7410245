// Vertices in no list, and the endpoints.
#![tactic(auto)]

ghost use Rattle.std.specs.Prelude.{◌≡◌, not, ℕ, ◌<◌, ◌≤◌, length};
ghost use Rattle.lists.specs.Lists.{counted};
ghost use Rattle.lists.specs.Inner.{Wrote};
ghost use Rattle.layout.specs.Content.{live_vertices};
ghost use Rattle.layout.specs.Layout.{limit, vertex_limit, read};
ghost use Rattle.layout.specs.Inner.{Formed};
ghost use Rattle.layout.specs.Answers.{result_of, on_formed, listed};
ghost use Rattle.marks.specs.Marks.{is_marked, marked};
ghost use Rattle.properties.specs.Properties.{twice};
ghost use Rattle.properties.specs.Results.{orphan_vertices_result, endpoints_result};

use layout::{Answer, Refusal};
use listed_members::listed_marks;

// The records that are not marked.
fn others(marks: &[bool; 256]) -> [bool; 256]
    ensures { ((k : ℕ) → k < vertex_limit → is_marked result k ≡ not (is_marked marks.now k)) }
{
    let mut rest = [false; 256];
    for k in 0..layout::VERTEX_LIMIT {
        rest[k] = !marks[k];
    }
    rest
}

fn list_orphans(t: &[u32], out: &mut [u32]) -> Answer
    requires { Formed limit t.now }
    ensures { result_of result out.new ≡ orphan_vertices_result out.old (read limit t.now) }
{
    let members = listed_marks(t, 0, 0);
    let orphans = others(&members);
    marks::list_marked(t, &orphans, out)
}

// The vertices that no hyperedge lists.
pub fn get_orphan_vertices(t: &[u32], out: &mut [u32]) -> Answer
    ensures { result_of result out.new ≡ on_formed t.now out.old (orphan_vertices_result out.old) }
{
    if !well_formed::well_formed(t) {
        return Err(Refusal::NotWellFormed);
    }
    list_orphans(t, out)
}

// Writes how many vertices are marked, and the marked vertices after it, from the front of out.
fn write_counted(t: &[u32], marks: &[bool; 256], out: &mut [u32]) -> usize
    requires formed { Formed limit t.now }
    requires t_in_bounds { length (counted (marked marks.now (live_vertices (read limit t.now)))) ≤ length out.old }
    ensures { Wrote (counted (marked marks.now (live_vertices (read limit t.now)))) out.old result out.new }
{
    let n = layout::vertex_count(t);
    let c = marks::count_marked(marks, n);
    out[0] = c as u32;
    marks::write_marked(t, n, marks, &mut out[1..]);
    c + 1
}

// Lists the vertices marked in a and then those marked in b, each list with its count before it.
fn list_two(t: &[u32], a: &[bool; 256], b: &[bool; 256], out: &mut [u32]) -> Answer
    requires { Formed limit t.now }
    ensures { result_of result out.new ≡ listed (twice (marked a.now (live_vertices (read limit t.now))) (marked b.now (live_vertices (read limit t.now)))) out.old }
{
    let n = layout::vertex_count(t);
    let c = marks::count_marked(a, n) + marks::count_marked(b, n) + 2;
    if out.len() < c {
        return Err(Refusal::NoRoom(c));
    }
    let k = write_counted(t, a, out);
    write_counted(t, b, &mut out[k..]);
    Ok(c)
}

fn list_endpoints(t: &[u32], out: &mut [u32]) -> Answer
    requires { Formed limit t.now }
    ensures { result_of result out.new ≡ endpoints_result out.old (read limit t.now) }
{
    let stepped_to = listed_marks(t, 1, 0);
    let stepped_from = listed_marks(t, 0, 1);
    let sources = others(&stepped_to);
    let sinks = others(&stepped_from);
    list_two(t, &sources, &sinks, out)
}

// The vertices with no step in and those with no step out: count, sources, count, sinks.
pub fn get_endpoints(t: &[u32], out: &mut [u32]) -> Answer
    ensures { result_of result out.new ≡ on_formed t.now out.old (endpoints_result out.old) }
{
    if !well_formed::well_formed(t) {
        return Err(Refusal::NotWellFormed);
    }
    list_endpoints(t, out)
}
