// The least costs, and the best walk read off them.
#![tactic(auto)]

ghost use Rattle.std.specs.Prelude.{◌≡◌, ℕ, ◌<◌, ◌≤◌, length, get_or};
ghost use Rattle.distance.specs.Labels.{Shortest};
ghost use Rattle.distance.specs.Cost.{step_in, key_in, step_back, cost_back, key_back, Listed, Within};
ghost use Rattle.distance.specs.Path.{is_tight, hop};
ghost use Rattle.distance.specs.Descent.{Descended, Pair};

use distance::Walked;
use distance::blocks::pick;
use relaxed::{by, cost_of, label, relax, settle};

// The least key of a walk from s to each number: where a mark is 2.
pub fn dijkstra(
    c: &[u8; 65536],
    w: &[u32; 256],
    lists: &[u8; 65536],
    counts: &[u32; 256],
    n: usize,
    s: usize,
    m: &mut [u8; 256],
    d: &mut [u64; 256],
)
    requires { (n ≤ 256) × (s < n) × (length m.old ≡ 256) × (length d.old ≡ 256) × ((v : ℕ) → v < n → get_or m.old v 0 ≡ 0) × Listed c.now lists.now counts.now × Within n c.now }
    ensures { Shortest (step_in c.now) (key_in c.now w.now) n s m.new d.new }
{
    let mut b = [9223372036854775808u64; 16];
    label(n, s, 0, m, d, &mut b);
    let mut u = pick(n, m, d, &b);
    // Counts no index: each next number is the nearest open one, until there is none.
    while u < n {
        settle(n, u, m, d, &mut b);
        relax(c, w, lists, counts, n, u, m, d, &mut b);
        u = pick(n, m, d, &b);
    }
}

// Whether the step from x to v keeps to a least key: the matrix holds the steps against their direction.
fn tight(c: &[u8; 65536], w: &[u32; 256], m: &[u8; 256], d: &[u64; 256], x: usize, v: usize) -> bool
    requires { (x < 256) × (v < 256) × (get_or m.now v 0 ≡ 2 → get_or d.now v 0 ≤ 72057594037927936) }
    ensures { result ≡ is_tight (step_back c.now) (key_back c.now w.now) m.now d.now x v }
{
    let h = c[v * 256 + x];
    if h == 0 {
        return false;
    }
    if m[v] != 2 {
        return false;
    }
    let key = by(d[v], cost_of(w, h));
    d[x] == key
}

// The smallest number with such a step, or n.
fn hop_from(
    c: &[u8; 65536],
    w: &[u32; 256],
    m: &[u8; 256],
    d: &[u64; 256],
    n: usize,
    x: usize,
) -> usize
    requires { (n ≤ 256) × (x < n) × ((v : ℕ) → v < n → get_or m.now v 0 ≡ 2 → get_or d.now v 0 ≤ 72057594037927936) }
    ensures { result ≡ hop (step_back c.now) (key_back c.now w.now) n m.now d.now x }
{
    for v in 0..n {
        if tight(c, w, m, d, x, v) {
            return v;
        }
    }
    n
}

// The walk from x down the keys, in the first places of `out`.
fn descend(
    c: &[u8; 65536],
    w: &[u32; 256],
    m: &[u8; 256],
    d: &[u64; 256],
    n: usize,
    x: usize,
    out: &mut [u32; 256],
) -> usize
    requires { (n ≤ 256) × (x < n) × (length out.old ≡ 256) × ((v : ℕ) → v < n → get_or m.now v 0 ≡ 2 → get_or d.now v 0 ≤ 72057594037927936) }
    ensures { Descended (step_back c.now) (key_back c.now w.now) n m.now d.now x result out.new }
{
    let mut u = x;
    for at in 0..n {
        if d[u] == 0 {
            return at;
        }
        let next = hop_from(c, w, m, d, n, u);
        if n <= next {
            return at;
        }
        out[at] = next as u32;
        u = next;
    }
    n
}

// The best walk from x to y, in the first places of `out`: the matrix holds the steps against their direction.
pub fn best_walk(
    c: &[u8; 65536],
    w: &[u32; 256],
    lists: &[u8; 65536],
    counts: &[u32; 256],
    n: usize,
    x: usize,
    y: usize,
    out: &mut [u32; 256],
) -> Walked
    requires { (n ≤ 256) × (x < n) × (y < n) × (length out.old ≡ 256) × Listed c.now lists.now counts.now × Within n c.now }
    ensures { Pair (step_back c.now) (cost_back c.now w.now) n x y result.ok result.cost result.steps out.new }
{
    let mut m = [0u8; 256];
    let mut d = [0u64; 256];
    dijkstra(c, w, lists, counts, n, y, &mut m, &mut d);
    if m[x] != 2 {
        return Walked {
            ok: false,
            steps: 0,
            cost: 0,
        };
    }
    let k = descend(c, w, &m, &d, n, x, out);
    Walked {
        ok: true,
        steps: k,
        cost: d[x] / 65536,
    }
}
