// Whether a table is well formed.
#![tactic(auto)]

ghost use Rattle.std.specs.Prelude.{◌≡◌, true, ◌<◌, ◌≤◌, length};
ghost use Rattle.lists.specs.Tests.{every};
ghost use Rattle.layout.specs.Content.{numbered, valid};
ghost use Rattle.layout.specs.Layout.{limit, vertex_limit, hyperedge_limit, vertex_size, vertices_at, size, next_vertex_in, vertex_count, count_at, read};
ghost use Rattle.layout.specs.WellFormed.{record_shaped, well_formed};
ghost use Rattle.layout.specs.Inner.{Shaped, column};
ghost use Rattle.formed.specs.Records.{record_live, record_below};

use formed::{all_below, climbing, is_shaped};
use live_members::all_members_live;

// The members of a record are below n.
fn members_below(t: &[u32], n: u32, j: usize) -> bool
    requires { (length t.now ≡ size limit) × ((j < hyperedge_limit) × (count_at limit t.now j ≤ limit)) }
    ensures { result ≡ record_below limit n t.now j }
{
    all_below(layout::members(t, j), n)
}

fn all_members_below(t: &[u32], n: u32, m: usize) -> bool
    requires t_len { (length t.now ≡ size limit) × (m ≤ hyperedge_limit) }
    requires m_value { every (record_shaped limit t.now) m ≡ true }
    ensures { result ≡ every (record_below limit n t.now) m }
{
    for j in 0..m {
        if !members_below(t, n, j) {
            return false;
        }
    }
    true
}

// Every member of the first m records is live. Where as many vertices are live as numbers were given, the live ones
// are those below n.
fn members_valid(t: &[u32], n: usize, m: usize) -> bool
    requires t_len { (length t.now ≡ size limit) × ((n ≤ vertex_limit) × (m ≤ hyperedge_limit)) }
    requires m_value { every (record_shaped limit t.now) m ≡ true }
    requires t_value { numbered (column t.now vertices_at vertex_size n) (next_vertex_in t.now) ≡ true }
    requires n_value { n ≡ vertex_count t.now }
    ensures { result ≡ every (record_live limit (column t.now vertices_at vertex_size n) t.now) m }
{
    if t[0] == t[2] {
        return all_members_below(t, t[2], m);
    }
    all_members_live(t, n, m)
}

// The numbers ascend below the next ones, and every member is live.
fn is_valid(t: &[u32]) -> bool
    requires { Shaped limit t.now }
    ensures { result ≡ valid (read limit t.now) }
{
    let n = layout::vertex_count(t);
    let m = layout::hyperedge_count(t);
    if !climbing(t, layout::VERTICES_AT, layout::VERTEX_SIZE, n, t[0]) {
        return false;
    }
    if !climbing(t, layout::HYPEREDGES_AT, layout::RECORD_SIZE, m, t[1]) {
        return false;
    }
    members_valid(t, n, m)
}

pub fn well_formed(t: &[u32]) -> bool
    ensures { result ≡ well_formed limit t.now }
{
    if !is_shaped(t) {
        return false;
    }
    is_valid(t)
}
