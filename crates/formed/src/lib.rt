// The shape of a table: its counts, its unused words, and numbers that climb; for a slice of any length and content.
#![tactic(auto)]

ghost use Rattle.std.specs.Prelude.{◌≡◌, ◌+◌, ◌*◌, ◌<◌, ◌≤◌, length};
ghost use Rattle.lists.specs.Tests.{every};
ghost use Rattle.lists.specs.Lists.{all, zeros, is_below};
ghost use Rattle.layout.specs.Content.{numbered};
ghost use Rattle.layout.specs.Layout.{limit, vertex_limit, hyperedge_limit, size, vertex_count, hyperedge_count};
ghost use Rattle.layout.specs.WellFormed.{record_shaped, unused_vertices, unused_hyperedges, shaped};
ghost use Rattle.layout.specs.Inner.{column};

// Whether every word is below high. No word is skipped, so that the compiler can take several at a time.
pub fn all_below(s: &[u32], high: u32) -> bool
    ensures { result ≡ all (is_below high) s.now }
{
    let mut ok = true;
    for i in 0..s.len() {
        if high <= s[i] {
            ok = false;
        }
    }
    ok
}

fn all_zero(s: &[u32]) -> bool
    ensures { result ≡ zeros s.now }
{
    all_below(s, 1)
}

// Whether the n words at base, base + step, .. strictly ascend and stay below next.
pub fn climbing(t: &[u32], base: usize, step: usize, n: usize, next: u32) -> bool
    requires step_in_bounds { base + n * step ≤ length t.now }
    requires step_nonzero { 0 < step }
    ensures { result ≡ numbered (column t.now base step n) next }
{
    let mut low: u32 = 0;
    for i in 0..n {
        let x = t[base + i * step];
        if x < low {
            return false;
        }
        if next <= x {
            return false;
        }
        low = x + 1;
    }
    true
}

fn record_shaped(t: &[u32], j: usize) -> bool
    requires { (length t.now ≡ size limit) × (j < hyperedge_limit) }
    ensures { result ≡ record_shaped limit t.now j }
{
    let k = layout::member_count(t, j);
    if k <= 0 {
        return false;
    }
    if layout::MEMBER_LIMIT < k {
        return false;
    }
    let a = layout::HYPEREDGES_AT + j * layout::RECORD_SIZE + 3 + k;
    let e = a + (layout::MEMBER_LIMIT - k);
    all_zero(&t[a..e])
}

fn records_shaped(t: &[u32], m: usize) -> bool
    requires { (length t.now ≡ size limit) × (m ≤ hyperedge_limit) }
    ensures { result ≡ every (record_shaped limit t.now) m }
{
    for j in 0..m {
        if !record_shaped(t, j) {
            return false;
        }
    }
    true
}

// Every word of an unused record is 0: the vertices', and the hyperedges'.
fn vertices_unused(t: &[u32], n: usize) -> bool
    requires t_len { (length t.now ≡ size limit) × (n ≤ vertex_limit) }
    requires n_value { n ≡ vertex_count t.now }
    ensures { result ≡ unused_vertices t.now }
{
    let a = layout::VERTICES_AT + n * layout::VERTEX_SIZE;
    all_zero(&t[a..layout::HYPEREDGES_AT])
}

fn hyperedges_unused(t: &[u32], m: usize) -> bool
    requires t_len { (length t.now ≡ size limit) × (m ≤ hyperedge_limit) }
    requires m_value { m ≡ hyperedge_count t.now }
    ensures { result ≡ unused_hyperedges limit t.now }
{
    let a = layout::HYPEREDGES_AT + m * layout::RECORD_SIZE;
    all_zero(&t[a..])
}

// The length and the counts are right, and every unused word is 0.
pub fn is_shaped(t: &[u32]) -> bool
    ensures { result ≡ shaped limit t.now }
{
    if t.len() != layout::SIZE {
        return false;
    }
    let n = layout::vertex_count(t);
    let m = layout::hyperedge_count(t);
    if layout::VERTEX_LIMIT < n {
        return false;
    }
    if layout::HYPEREDGE_LIMIT < m {
        return false;
    }
    if !vertices_unused(t, n) {
        return false;
    }
    if !hyperedges_unused(t, m) {
        return false;
    }
    records_shaped(t, m)
}
