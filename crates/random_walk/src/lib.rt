// The random walk.
#![tactic(auto)]

ghost use Rattle.std.specs.Prelude.{◌≡◌, ◌≤◌, length};
ghost use Rattle.lists.specs.Lists.{over};
ghost use Rattle.layout.specs.Layout.{limit, read};
ghost use Rattle.layout.specs.Inner.{Formed};
ghost use Rattle.layout.specs.Answers.{result_of, listed, on_formed};
ghost use Rattle.walk.specs.Walk.{walk_from, step_limit, cut, first_state, walk, walk_result};

use firsts::first_places;
use layout::{Answer, Refusal, VertexIndex};
use membership::list_members;
use walk::Walker;
use walking::write_walk;

// A step count over this is cut to it.
pub const STEP_LIMIT: usize = 4096;

fn cut(steps: usize) -> usize
    ensures { (result ≡ cut steps) × (result ≤ step_limit) }
{
    if steps <= STEP_LIMIT {
        return steps;
    }
    STEP_LIMIT
}

fn first_state(seed: u64) -> u64
    ensures { result ≡ first_state seed }
{
    if seed == 0 {
        return 1;
    }
    seed
}

// The same with the passes over the records before it, which are made once.
fn lay_out_and_write(t: &[u32], w: Walker, n: usize, out: &mut [u32])
    requires formed { Formed limit t.now }
    requires n_in_bounds { n ≤ length out.old }
    ensures { out.new ≡ over (walk_from (read limit t.now) w n) out.old }
{
    let mut firsts = [false; 65536];
    first_places(t, &mut firsts);
    let mut rows = [0u8; 65536];
    let mut counts = [0usize; 256];
    list_members(t, &firsts, &mut rows, &mut counts);
    write_walk(t, &firsts, &rows, &counts, w, n, out);
}

fn list_walk(t: &[u32], start: u32, steps: usize, seed: u64, out: &mut [u32]) -> Answer
    requires { Formed limit t.now }
    ensures { result_of result out.new ≡ listed (walk (read limit t.now) start steps seed) out.old }
{
    let n = cut(steps) + 1;
    if out.len() < n {
        return Err(Refusal::NoRoom(n));
    }
    let w = Walker {
        at: start,
        state: first_state(seed),
    };
    lay_out_and_write(t, w, n, out);
    Ok(n)
}

fn walk_formed(t: &[u32], start: VertexIndex, steps: usize, seed: u64, out: &mut [u32]) -> Answer
    requires { Formed limit t.now }
    ensures { result_of result out.new ≡ walk_result start.0 steps seed out.old (read limit t.now) }
{
    find::find_vertex(t, start).ok_or(Refusal::VertexNotLive(start))?;
    list_walk(t, start.0, steps, seed, out)
}

// The start and one vertex for each step.
pub fn random_walk(
    t: &[u32],
    start: VertexIndex,
    steps: usize,
    seed: u64,
    out: &mut [u32],
) -> Answer
    ensures { result_of result out.new ≡ on_formed t.now out.old (walk_result start.0 steps seed out.old) }
{
    if !well_formed::well_formed(t) {
        return Err(Refusal::NotWellFormed);
    }
    walk_formed(t, start, steps, seed, out)
}
