// A day at the release desk. Four tubes are registered: 1 and 2 are taken from 0, and both go into 3. All are reviewed, one is released too early, an order is
// refused and one is accepted, all are released going down it, and a tube is withdrawn. A line for each call: what was asked, and what the desk answered.
#![tactic(auto)]

use desk_edits::{desk_add_hyperedge, desk_add_vertex};
use desk_looks::desk_state;
use desk_order::desk_accept_order;
use desk_release::desk_release;
use desk_removals::desk_remove_vertex;
use desk_review::desk_review;
use layout::{Answer, Reply, VertexIndex};
use std::io;

fn print(rt: &impl Print, text: &str) -> io::Result<()> {
    rt.print(text)
}

fn print_number(rt: &impl Print, n: u64) -> io::Result<()> {
    rt.print(n)
}

// What a refusal's detail is, by the answer's number.
fn print_ground(rt: &impl Print, number: u32) -> io::Result<()> {
    if number == 3 {
        return print(rt, ", not live: tube ");
    }
    if number == 17 {
        return print(rt, ", not reviewed: tube ");
    }
    if number == 18 {
        return print(rt, ", upstream not released: tube ");
    }
    if number == 19 {
        return print(rt, ", at fault: place ");
    }
    print(rt, ", detail ")
}

fn print_answer(rt: &impl Print, a: Answer) -> io::Result<()> {
    let r = Reply::from(a);
    if r.number == 0 {
        return print(rt, ": done\n");
    }
    print(rt, ": refused ")?;
    print_number(rt, r.number as u64)?;
    print_ground(rt, r.number)?;
    print_number(rt, r.detail)?;
    print(rt, "\n")
}

fn print_state(rt: &impl Print, state: u64) -> io::Result<()> {
    if state == 0 {
        return print(rt, " is waiting\n");
    }
    if state == 1 {
        return print(rt, " is reviewed\n");
    }
    print(rt, " is released\n")
}

fn register(rt: &impl Print, t: &mut [u32], s: &mut [u32], weight: u32) -> io::Result<()> {
    let r = Reply::from(desk_add_vertex(t, s, weight));
    print(rt, "registered: tube ")?;
    print_number(rt, r.detail)?;
    print(rt, "\n")
}

fn transfer(
    rt: &impl Print,
    t: &mut [u32],
    s: &mut [u32],
    what: &str,
    members: &[u32],
) -> io::Result<()> {
    print(rt, "transfer ")?;
    print(rt, what)?;
    print_answer(rt, desk_add_hyperedge(t, s, members, 5))
}

fn review(rt: &impl Print, t: &[u32], s: &mut [u32], v: u32) -> io::Result<()> {
    print(rt, "review tube ")?;
    print_number(rt, v as u64)?;
    print_answer(rt, desk_review(t, s, VertexIndex(v)))
}

fn release(rt: &impl Print, t: &[u32], s: &mut [u32], v: u32) -> io::Result<()> {
    print(rt, "release tube ")?;
    print_number(rt, v as u64)?;
    print_answer(rt, desk_release(t, s, VertexIndex(v)))
}

fn withdraw(rt: &impl Print, t: &mut [u32], s: &mut [u32], v: u32) -> io::Result<()> {
    print(rt, "withdraw tube ")?;
    print_number(rt, v as u64)?;
    print_answer(rt, desk_remove_vertex(t, s, VertexIndex(v)))
}

fn look(rt: &impl Print, t: &[u32], s: &[u32], v: u32) -> io::Result<()> {
    let r = Reply::from(desk_state(t, s, VertexIndex(v)));
    print(rt, "tube ")?;
    print_number(rt, v as u64)?;
    if r.number == 0 {
        return print_state(rt, r.detail);
    }
    print(rt, " is not live\n")
}

fn hand_in(rt: &impl Print, t: &[u32], s: &[u32], what: &str, order: &[u32]) -> io::Result<()> {
    print(rt, "order ")?;
    print(rt, what)?;
    print_answer(rt, desk_accept_order(t, s, order))
}

fn registers(rt: &impl Print, t: &mut [u32], s: &mut [u32]) -> io::Result<()> {
    register(rt, t, s, 70)?;
    register(rt, t, s, 71)?;
    register(rt, t, s, 72)?;
    register(rt, t, s, 73)
}

fn transfers(rt: &impl Print, t: &mut [u32], s: &mut [u32]) -> io::Result<()> {
    let left = [0u32, 1, 3];
    let right = [0u32, 2, 3];
    transfer(rt, t, s, "0 1 3", &left)?;
    transfer(rt, t, s, "0 2 3", &right)
}

fn reviews(rt: &impl Print, t: &[u32], s: &mut [u32]) -> io::Result<()> {
    release(rt, t, s, 0)?;
    review(rt, t, s, 0)?;
    review(rt, t, s, 1)?;
    review(rt, t, s, 2)?;
    review(rt, t, s, 3)?;
    release(rt, t, s, 0)?;
    release(rt, t, s, 2)?;
    release(rt, t, s, 3)
}

fn orders(rt: &impl Print, t: &[u32], s: &[u32]) -> io::Result<()> {
    let back = [0u32, 1, 3, 2];
    let twice = [0u32, 2, 0, 3];
    let good = [0u32, 2, 1, 3];
    hand_in(rt, t, s, "0 1 3 2", &back)?;
    hand_in(rt, t, s, "0 2 0 3", &twice)?;
    hand_in(rt, t, s, "0 2 1", &good[..3])?;
    hand_in(rt, t, s, "0 2 1 3", &good)
}

// Going down the order: tubes 0 and 2 are released already.
fn releases(rt: &impl Print, t: &[u32], s: &mut [u32]) -> io::Result<()> {
    release(rt, t, s, 0)?;
    release(rt, t, s, 2)?;
    release(rt, t, s, 1)?;
    release(rt, t, s, 3)
}

fn states(rt: &impl Print, t: &[u32], s: &[u32]) -> io::Result<()> {
    look(rt, t, s, 0)?;
    look(rt, t, s, 1)?;
    look(rt, t, s, 2)?;
    look(rt, t, s, 3)?;
    look(rt, t, s, 4)
}

// A tube that comes late, and one that is withdrawn.
fn changes(rt: &impl Print, t: &mut [u32], s: &mut [u32]) -> io::Result<()> {
    let late = [3u32, 4];
    register(rt, t, s, 74)?;
    transfer(rt, t, s, "3 4", &late)?;
    withdraw(rt, t, s, 1)
}

fn last_signatures(rt: &impl Print, t: &[u32], s: &mut [u32]) -> io::Result<()> {
    review(rt, t, s, 1)?;
    review(rt, t, s, 3)?;
    review(rt, t, s, 4)?;
    release(rt, t, s, 4)
}

fn main(rt: HostRuntime) -> io::Result<()> {
    let mut t = [0u32; layout::SIZE];
    let mut s = [0u32; layout::VERTEX_LIMIT];
    registers(&rt, &mut t, &mut s)?;
    transfers(&rt, &mut t, &mut s)?;
    reviews(&rt, &t, &mut s)?;
    orders(&rt, &t, &s)?;
    releases(&rt, &t, &mut s)?;
    changes(&rt, &mut t, &mut s)?;
    states(&rt, &t, &s)?;
    last_signatures(&rt, &t, &mut s)?;
    states(&rt, &t, &s)
}
