// Runs the edits at their limits. A line for each call: what was asked, then the answer's number and detail.
#![tactic(auto)]

use add_hyperedge::add_hyperedge;
use add_vertex::add_vertex;
use hypergraph::{clear, is_empty};
use layout::{Answer, HyperedgeIndex, Reply, VertexIndex};
use remove_hyperedge::remove_hyperedge;
use remove_vertex::remove_vertex;
use std::io;
use update_hyperedge_vertices::update_hyperedge_vertices as update;

fn say(rt: &impl Print, what: &str, a: Answer) -> io::Result<()> {
    let r = Reply::from(a);
    println!(rt; "{what}: {} {}", r.number, r.detail)
}

// Adds vertices until 256 are live.
fn add_vertices(t: &mut [u32]) {
    for _ in 0..layout::VERTEX_LIMIT {
        let _ = add_vertex(t, 7);
    }
}

// Adds the lists 255, 0 and 255, 1 and so on, of weight 5, until 192 hyperedges are live.
fn add_hyperedges(t: &mut [u32]) {
    for j in 0u32..layout::HYPEREDGE_LIMIT as u32 {
        let list = [255, j];
        let _ = add_hyperedge(t, &list, 5);
    }
}

// The list 0, 1 and so on.
fn count_up(list: &mut [u32]) {
    let mut v: u32 = 0;
    for i in 0..list.len() {
        list[i] = v;
        v = v.wrapping_add(1);
    }
}

fn vertices(rt: &impl Print) -> io::Result<()> {
    let mut t = [0u32; layout::SIZE];
    say(rt, "empty table, empty", is_empty(&t))?;
    say(rt, "first vertex", add_vertex(&mut t, 7))?;
    say(rt, "one vertex, empty", is_empty(&t))?;
    add_vertices(&mut t);
    say(rt, "vertex 257", add_vertex(&mut t, 7))
}

fn lists(rt: &impl Print) -> io::Result<()> {
    let mut t = [0u32; layout::SIZE];
    let longer = [3u32; layout::MEMBER_LIMIT + 1];
    let unknown = [3u32, 256, 257];
    add_vertices(&mut t);
    say(rt, "33 members", add_hyperedge(&mut t, &longer, 5))?;
    say(
        rt,
        "no members, weight 9",
        add_hyperedge(&mut t, &longer[..0], 9),
    )?;
    say(
        rt,
        "members 256 and 257 unknown",
        add_hyperedge(&mut t, &unknown, 5),
    )
}

fn longest(rt: &impl Print) -> io::Result<()> {
    let mut t = [0u32; layout::SIZE];
    let mut list = [0u32; layout::MEMBER_LIMIT];
    count_up(&mut list);
    add_vertices(&mut t);
    say(rt, "32 members", add_hyperedge(&mut t, &list, 5))?;
    say(rt, "the same again", add_hyperedge(&mut t, &list, 5))
}

// Lists with equal neighbours.
fn neighbours(rt: &impl Print) -> io::Result<()> {
    let mut t = [0u32; layout::SIZE];
    let all = [3u32; layout::MEMBER_LIMIT];
    let several = [4u32, 9, 9, 4, 4];
    let unknown = [4u32, 4, 256];
    add_vertices(&mut t);
    say(rt, "list 4, 4", add_hyperedge(&mut t, &unknown[..2], 5))?;
    say(
        rt,
        "list 4, 4, 256, the last unknown",
        add_hyperedge(&mut t, &unknown, 5),
    )?;
    say(rt, "list 4, 9, 9, 4, 4", add_hyperedge(&mut t, &several, 5))?;
    say(rt, "32 times 3", add_hyperedge(&mut t, &all, 5))?;
    say(rt, "3 alone", add_hyperedge(&mut t, &all[..1], 5))?;
    say(
        rt,
        "update of it to 4, 4",
        update(&mut t, HyperedgeIndex(0), &unknown[..2]),
    )
}

fn hyperedges(rt: &impl Print) -> io::Result<()> {
    let mut t = [0u32; layout::SIZE];
    let last = [255u32, 191];
    let further = [1u32, 2];
    let twice = [4u32, 4];
    add_vertices(&mut t);
    add_hyperedges(&mut t);
    say(rt, "hyperedge 193", add_hyperedge(&mut t, &further, 5))?;
    say(
        rt,
        "one that is there, table full",
        add_hyperedge(&mut t, &last, 5),
    )?;
    say(
        rt,
        "the same list, another weight",
        add_hyperedge(&mut t, &last, 6),
    )?;
    say(
        rt,
        "list 4, 4, table full",
        add_hyperedge(&mut t, &twice, 5),
    )
}

fn updates(rt: &impl Print) -> io::Result<()> {
    let mut t = [0u32; layout::SIZE];
    let first = [255u32, 0];
    let further = [1u32, 2];
    let twice = [4u32, 4];
    add_vertices(&mut t);
    add_hyperedges(&mut t);
    say(
        rt,
        "update, unknown, no members",
        update(&mut t, HyperedgeIndex(192), &first[..0]),
    )?;
    say(
        rt,
        "update, unknown, to 4, 4",
        update(&mut t, HyperedgeIndex(192), &twice),
    )?;
    say(
        rt,
        "update, unknown",
        update(&mut t, HyperedgeIndex(192), &further),
    )?;
    say(
        rt,
        "update to the list that it has",
        update(&mut t, HyperedgeIndex(0), &first),
    )?;
    say(rt, "update", update(&mut t, HyperedgeIndex(0), &further))?;
    say(
        rt,
        "update to the same again",
        update(&mut t, HyperedgeIndex(0), &further),
    )
}

fn removals(rt: &impl Print) -> io::Result<()> {
    let mut t = [0u32; layout::SIZE];
    let between = [3u32, 4, 3];
    let alone = [3u32, 3];
    add_vertices(&mut t);
    say(rt, "list 3, 4, 3", add_hyperedge(&mut t, &between, 5))?;
    say(rt, "remove vertex 4", remove_vertex(&mut t, VertexIndex(4)))?;
    say(
        rt,
        "list 3, 3, which is there",
        add_hyperedge(&mut t, &alone, 5),
    )?;
    say(rt, "remove vertex 3", remove_vertex(&mut t, VertexIndex(3)))?;
    say(
        rt,
        "remove vertex 3 again",
        remove_vertex(&mut t, VertexIndex(3)),
    )?;
    say(
        rt,
        "remove the list that held it alone",
        remove_hyperedge(&mut t, HyperedgeIndex(0)),
    )?;
    say(rt, "vertex after a removal", add_vertex(&mut t, 7))
}

// The next number of each kind at its end.
fn numbers_spent(rt: &impl Print) -> io::Result<()> {
    let mut t = [0u32; layout::SIZE];
    let only = [4294967294u32];
    let twice = [4294967294u32, 4294967294];
    t[0] = 4294967294;
    t[1] = 4294967294;
    say(rt, "last vertex number", add_vertex(&mut t, 7))?;
    say(rt, "vertex numbers spent", add_vertex(&mut t, 7))?;
    say(rt, "last hyperedge number", add_hyperedge(&mut t, &only, 5))?;
    say(
        rt,
        "hyperedge numbers spent",
        add_hyperedge(&mut t, &only, 6),
    )?;
    say(
        rt,
        "numbers spent, equal neighbours",
        add_hyperedge(&mut t, &twice, 6),
    )?;
    say(rt, "the one that is there", add_hyperedge(&mut t, &only, 5))
}

fn not_formed(rt: &impl Print) -> io::Result<()> {
    let mut t = [0u32; layout::SIZE];
    t[layout::SIZE - 1] = 1;
    say(rt, "last word not 0, vertex", add_vertex(&mut t, 7))?;
    say(rt, "last word not 0, clear", clear(&mut t))?;
    say(rt, "cleared, vertex", add_vertex(&mut t, 7))
}

fn short(rt: &impl Print) -> io::Result<()> {
    let mut t = [0u32; layout::SIZE - 1];
    say(rt, "a word short, clear", clear(&mut t))?;
    say(rt, "a word short, vertex", add_vertex(&mut t, 7))
}

fn main(rt: HostRuntime) -> io::Result<()> {
    vertices(&rt)?;
    lists(&rt)?;
    longest(&rt)?;
    neighbours(&rt)?;
    hyperedges(&rt)?;
    updates(&rt)?;
    removals(&rt)?;
    numbers_spent(&rt)?;
    not_formed(&rt)?;
    short(&rt)
}
