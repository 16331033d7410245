// The vertices that a release would release now.
#![tactic(auto)]

ghost use Rattle.std.specs.Prelude.{◌≡◌, not, ◌||◌, ◌+◌, ◌<◌, ◌≤◌, eqb, length};
ghost use Rattle.lists.specs.Tests.{◌and◌};
ghost use Rattle.layout.specs.Layout.{limit, vertex_limit, read};
ghost use Rattle.layout.specs.Inner.{Formed};
ghost use Rattle.layout.specs.Answers.{result_of};
ghost use Rattle.graph.specs.Reach.{matrix};
ghost use Rattle.desk.specs.States.{reviewed};
ghost use Rattle.desk.specs.Desk.{desk_of};
ghost use Rattle.desk.specs.Releases.{on_desk, releasable_result};
ghost use Rattle.desk_looks.specs.Held.{MarkedWhere, record_free, Held, Joined};

use desk::{RELEASED, REVIEWED};
use desk_fits::desk_fits;
use layout::{Answer, Refusal};

fn either(held: bool, mark: u8) -> bool
    ensures { result ≡ (held || eqb mark 1) }
{
    if mark == 1 {
        return true;
    }
    held
}

// The records to which record u has a step are held. None is skipped, so that the compiler can take several at a time.
fn hold_row(m: &[u8; 65536], u: usize, held: &mut [bool; 256])
    requires { (u < vertex_limit) × (length held.old ≡ vertex_limit) }
    ensures { Joined (matrix m.now u) vertex_limit held.old held.new }
{
    for k in 0..256 {
        held[k] = either(held[k], m[u * 256 + k]);
    }
}

// The same, unless record u is released.
fn hold_from(m: &[u8; 65536], s: &[u32], u: usize, held: &mut [bool; 256])
    requires { (u < vertex_limit) × (length s.now ≡ vertex_limit) × Held (matrix m.now) s.now u held.old }
    ensures { Held (matrix m.now) s.now (u + 1) held.new }
{
    if s[u] == RELEASED {
        return;
    }
    hold_row(m, u, held);
}

// Marks the records that one of n records holds: it has a step to them, and is not released.
fn mark_held(m: &[u8; 65536], s: &[u32], n: usize) -> [bool; 256]
    requires { (n ≤ vertex_limit) × (length s.now ≡ vertex_limit) }
    ensures { Held (matrix m.now) s.now n result }
{
    let mut held = [false; 256];
    for u in 0..n {
        hold_from(m, s, u, &mut held);
    }
    held
}

fn is_free(x: u32, held: bool) -> bool
    ensures { result ≡ (eqb x reviewed and not held) }
{
    if held {
        return false;
    }
    x == REVIEWED
}

// Marks those of n records that are reviewed and not held.
fn mark_free(s: &[u32], n: usize, held: &[bool; 256]) -> [bool; 256]
    requires { (n ≤ vertex_limit) × (length s.now ≡ vertex_limit) }
    ensures { MarkedWhere (record_free s.now held.now) n result }
{
    let mut marks = [false; 256];
    for k in 0..n {
        marks[k] = is_free(s[k], held[k]);
    }
    marks
}

fn releasable_formed(t: &[u32], s: &[u32], out: &mut [u32]) -> Answer
    requires formed { Formed limit t.now }
    requires s_len { length s.now ≡ vertex_limit }
    ensures { result_of result out.new ≡ releasable_result s.now out.old (read limit t.now) }
{
    let n = layout::vertex_count(t);
    let mut m = [0u8; 65536];
    steps::step_matrix(t, &mut m);
    let held = mark_held(&m, s, n);
    let marks = mark_free(s, n, &held);
    marks::list_marked(t, &marks, out)
}

// The vertices that a release would release now: reviewed, and every vertex with a step into them released.
pub fn desk_releasable(t: &[u32], s: &[u32], out: &mut [u32]) -> Answer
    ensures { result_of result out.new ≡ on_desk (desk_of t.now s.now) out.old (releasable_result s.now out.old) }
{
    if !desk_fits(t, s) {
        return Err(Refusal::NotWellFormed);
    }
    releasable_formed(t, s, out)
}
