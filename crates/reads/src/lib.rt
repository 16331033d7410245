// Plain reads: the weight of a vertex or of a hyperedge, a hyperedge's members, and the live numbers.
#![tactic(auto)]

ghost use Rattle.std.specs.Prelude.{◌≡◌, [], ◌+◌, ◌*◌, ◌<◌, ◌≤◌, length};
ghost use Rattle.lists.specs.Lists.{over};
ghost use Rattle.layout.specs.Layout.{limit, hyperedge_count, members_at, read};
ghost use Rattle.layout.specs.Inner.{column, Formed};
ghost use Rattle.layout.specs.Answers.{result_of, listed, on_formed};
ghost use Rattle.reads.specs.Reads.{vertex_weight_result, hyperedge_weight_result, members_result, vertices_result, hyperedges_result};

use layout::{
    Answer, HYPEREDGES_AT, HyperedgeIndex, RECORD_SIZE, Refusal, VERTEX_SIZE, VERTICES_AT,
    VertexIndex,
};

// Writes the n words at base, base + step, .. from the front of out.
fn write_column(t: &[u32], base: usize, step: usize, n: usize, out: &mut [u32])
    requires step_in_bounds { (base + n * step ≤ length t.now) × (0 < step) }
    requires n_in_bounds { n ≤ length out.old }
    ensures { out.new ≡ over (column t.now base step n) out.old }
{
    for i in 0..n {
        out[i] = t[base + i * step];
    }
}

// Lists those words.
fn list_column(t: &[u32], base: usize, step: usize, n: usize, out: &mut [u32]) -> Answer
    requires { (base + n * step ≤ length t.now) × (0 < step) }
    ensures { result_of result out.new ≡ listed (column t.now base step n) out.old }
{
    if out.len() < n {
        return Err(Refusal::NoRoom(n));
    }
    write_column(t, base, step, n, out);
    Ok(n)
}

fn vertex_weight_formed(t: &[u32], v: VertexIndex) -> Answer
    requires { Formed limit t.now }
    ensures { result_of result [] ≡ vertex_weight_result v.0 (read limit t.now) }
{
    let i = find::find_vertex(t, v).ok_or(Refusal::VertexNotLive(v))?;
    Ok(layout::wide(layout::vertex_weight(t, i)))
}

// The weight of a vertex.
pub fn get_vertex_weight(t: &[u32], v: VertexIndex) -> Answer
    ensures { result_of result [] ≡ on_formed t.now [] (vertex_weight_result v.0) }
{
    if !well_formed::well_formed(t) {
        return Err(Refusal::NotWellFormed);
    }
    vertex_weight_formed(t, v)
}

fn hyperedge_weight_formed(t: &[u32], e: HyperedgeIndex) -> Answer
    requires { Formed limit t.now }
    ensures { result_of result [] ≡ hyperedge_weight_result e.0 (read limit t.now) }
{
    let j = find::find_hyperedge(t, e).ok_or(Refusal::HyperedgeNotLive(e))?;
    Ok(layout::wide(layout::hyperedge_weight(t, j)))
}

// The weight of a hyperedge.
pub fn get_hyperedge_weight(t: &[u32], e: HyperedgeIndex) -> Answer
    ensures { result_of result [] ≡ on_formed t.now [] (hyperedge_weight_result e.0) }
{
    if !well_formed::well_formed(t) {
        return Err(Refusal::NotWellFormed);
    }
    hyperedge_weight_formed(t, e)
}

// The members of record j, in their order.
fn list_members(t: &[u32], j: usize, out: &mut [u32]) -> Answer
    requires formed { Formed limit t.now }
    requires j_bound { j < hyperedge_count t.now }
    ensures { result_of result out.new ≡ listed (members_at limit t.now j) out.old }
{
    let n = layout::member_count(t, j);
    let a = HYPEREDGES_AT + j * RECORD_SIZE + 3;
    list_column(t, a, 1, n, out)
}

fn members_formed(t: &[u32], e: HyperedgeIndex, out: &mut [u32]) -> Answer
    requires { Formed limit t.now }
    ensures { result_of result out.new ≡ members_result e.0 out.old (read limit t.now) }
{
    let j = find::find_hyperedge(t, e).ok_or(Refusal::HyperedgeNotLive(e))?;
    list_members(t, j, out)
}

// The members of a hyperedge, in their order.
pub fn get_hyperedge_vertices(t: &[u32], e: HyperedgeIndex, out: &mut [u32]) -> Answer
    ensures { result_of result out.new ≡ on_formed t.now out.old (members_result e.0 out.old) }
{
    if !well_formed::well_formed(t) {
        return Err(Refusal::NotWellFormed);
    }
    members_formed(t, e, out)
}

fn vertices_formed(t: &[u32], out: &mut [u32]) -> Answer
    requires { Formed limit t.now }
    ensures { result_of result out.new ≡ vertices_result out.old (read limit t.now) }
{
    let n = layout::vertex_count(t);
    list_column(t, VERTICES_AT, VERTEX_SIZE, n, out)
}

// The live vertices, ascending.
pub fn get_vertices(t: &[u32], out: &mut [u32]) -> Answer
    ensures { result_of result out.new ≡ on_formed t.now out.old (vertices_result out.old) }
{
    if !well_formed::well_formed(t) {
        return Err(Refusal::NotWellFormed);
    }
    vertices_formed(t, out)
}

fn hyperedges_formed(t: &[u32], out: &mut [u32]) -> Answer
    requires { Formed limit t.now }
    ensures { result_of result out.new ≡ hyperedges_result out.old (read limit t.now) }
{
    let m = layout::hyperedge_count(t);
    list_column(t, HYPEREDGES_AT, RECORD_SIZE, m, out)
}

// The live hyperedges, ascending.
pub fn get_hyperedges(t: &[u32], out: &mut [u32]) -> Answer
    ensures { result_of result out.new ≡ on_formed t.now out.old (hyperedges_result out.old) }
{
    if !well_formed::well_formed(t) {
        return Err(Refusal::NotWellFormed);
    }
    hyperedges_formed(t, out)
}
