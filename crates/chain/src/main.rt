// Runs the searches on a chain of 256 vertices, the longest walk that a table can hold. A line for each call: what was asked, then
// the answer's number and detail; for a listing that is done also its first two vertices and its last.
#![tactic(auto)]

use add_hyperedge::add_hyperedge;
use add_vertex::add_vertex;
use layout::{Answer, Reply, VertexIndex};
use std::io;

fn say(rt: &impl Print, what: &str, a: Answer) -> io::Result<()> {
    let r = Reply::from(a);
    println!(rt; "{what}: {} {}", r.number, r.detail)
}

fn say_vertex(rt: &impl Print, v: u32) -> io::Result<()> {
    print!(rt; " {v}")
}

fn say_ends(rt: &impl Print, out: &[u32; layout::VERTEX_LIMIT]) -> io::Result<()> {
    say_vertex(rt, out[0])?;
    say_vertex(rt, out[1])?;
    say_vertex(rt, out[layout::VERTEX_LIMIT - 1])?;
    println!(rt;)
}

fn add_vertices(t: &mut [u32]) {
    for _ in 0..layout::VERTEX_LIMIT {
        let _ = add_vertex(t, 7);
    }
}

// Adds the lists 0, 1, 2 and 2, 3, 4 and so on, and 254, 255 last.
fn add_steps(t: &mut [u32]) {
    for k in 0u32..127 {
        let x = 2 * k;
        let list = [x, x + 1, x + 2];
        let _ = add_hyperedge(t, &list, 5);
    }
    let last = [254u32, 255];
    let _ = add_hyperedge(t, &last, 5);
}

fn breadth_first(rt: &impl Print, t: &[u32]) -> io::Result<()> {
    let mut out = [0u32; layout::VERTEX_LIMIT];
    say(
        rt,
        "breadth first from 0",
        traversal::get_bfs(t, VertexIndex(0), &mut out),
    )?;
    say_ends(rt, &out)
}

fn depth_first(rt: &impl Print, t: &[u32]) -> io::Result<()> {
    let mut out = [0u32; layout::VERTEX_LIMIT];
    say(
        rt,
        "depth first from 0",
        traversal::get_dfs(t, VertexIndex(0), &mut out),
    )?;
    say_ends(rt, &out)
}

fn sorted(rt: &impl Print, t: &[u32]) -> io::Result<()> {
    let mut out = [0u32; layout::VERTEX_LIMIT];
    say(rt, "sort", topological_sort::topological_sort(t, &mut out))?;
    say_ends(rt, &out)
}

// The first component's length and member, and the last one's member.
fn strong(rt: &impl Print, t: &[u32]) -> io::Result<()> {
    let mut out = [0u32; 2 * layout::VERTEX_LIMIT];
    say(
        rt,
        "strong components",
        component_listings::strongly_connected_components(t, &mut out),
    )?;
    say_vertex(rt, out[0])?;
    say_vertex(rt, out[1])?;
    say_vertex(rt, out[2 * layout::VERTEX_LIMIT - 1])?;
    println!(rt;)
}

fn reached(rt: &impl Print, t: &[u32]) -> io::Result<()> {
    say(
        rt,
        "0 to 255",
        traversal::is_reachable(t, VertexIndex(0), VertexIndex(255)),
    )?;
    say(
        rt,
        "255 to 0",
        traversal::is_reachable(t, VertexIndex(255), VertexIndex(0)),
    )?;
    say(
        rt,
        "255 to 255",
        traversal::is_reachable(t, VertexIndex(255), VertexIndex(255)),
    )
}

// Asks with room for 255 words.
fn short(rt: &impl Print, t: &[u32], out: &mut [u32]) -> io::Result<()> {
    say(
        rt,
        "breadth first from 0, room for 255",
        traversal::get_bfs(t, VertexIndex(0), out),
    )?;
    say(
        rt,
        "depth first from 0, room for 255",
        traversal::get_dfs(t, VertexIndex(0), out),
    )?;
    say(
        rt,
        "depth first from 1, room for 255",
        traversal::get_dfs(t, VertexIndex(1), out),
    )?;
    say(
        rt,
        "depth first from 256",
        traversal::get_dfs(t, VertexIndex(256), out),
    )
}

fn ask(rt: &impl Print, t: &[u32]) -> io::Result<()> {
    let mut out = [0u32; layout::VERTEX_LIMIT - 1];
    breadth_first(rt, t)?;
    depth_first(rt, t)?;
    sorted(rt, t)?;
    strong(rt, t)?;
    reached(rt, t)?;
    short(rt, t, &mut out)
}

fn main(rt: HostRuntime) -> io::Result<()> {
    let mut t = [0u32; layout::SIZE];
    add_vertices(&mut t);
    add_steps(&mut t);
    ask(&rt, &t)
}
