// Labels lowered along the steps of a place.
#![tactic(auto)]

ghost use Rattle.std.specs.Prelude.{◌≡◌, ◌+◌, ◌*◌, ◌<◌, ◌≤◌, length, get_or, set};
ghost use Rattle.distance.specs.Labels.{Relaxed};
ghost use Rattle.distance.specs.Blocks.{Blocks};
ghost use Rattle.distance.specs.Cost.{step_in, key_in, Listed, Within, RelaxedAt};

use distance::blocks::{block_key, lesser};

// The number v is labelled with a key, no greater than the one it may have.
pub fn label(n: usize, v: usize, key: u64, m: &mut [u8; 256], d: &mut [u64; 256], b: &mut [u64; 16])
    requires { (n ≤ 256) × (v < n) × (length m.old ≡ 256) × (length d.old ≡ 256) × (get_or m.old v 0 ≡ 1 → key ≤ get_or d.old v 0) × Blocks n m.old d.old b.old }
    ensures { (m.new ≡ set m.old v 1) × (d.new ≡ set d.old v key) × Blocks n m.new d.new b.new }
{
    m[v] = 1;
    d[v] = key;
    let j = v / 16;
    b[j] = lesser(b[j], key);
}

// The number u is settled.
pub fn settle(n: usize, u: usize, m: &mut [u8; 256], d: &[u64; 256], b: &mut [u64; 16])
    requires { (n ≤ 256) × (u < n) × (length m.old ≡ 256) × Blocks n m.old d.now b.old }
    ensures { (m.new ≡ set m.old u 2) × Blocks n m.new d.now b.new }
{
    m[u] = 2;
    let j = u / 16;
    let key = block_key(n, m, d, j);
    b[j] = key;
}

// The cost of choice h.
pub fn cost_of(w: &[u32; 256], h: u8) -> u32
    ensures { result ≡ get_or w.now h 0 }
{
    w[h as usize]
}

// The key by way of a step of cost w.
pub fn by(base: u64, w: u32) -> u64
    requires { base ≤ 144115188075855872 }
    ensures { (result ≡ base + (w * 65536 + 1)) × (w * 65536 + 1 ≤ 281474976710656) }
{
    base + (w as u64) * 65536 + 1
}

// The step from the settled number u to v, where there is one.
fn relax_one(
    c: &[u8; 65536],
    w: &[u32; 256],
    n: usize,
    u: usize,
    v: usize,
    base: u64,
    m: &mut [u8; 256],
    d: &mut [u64; 256],
    b: &mut [u64; 16],
)
    requires { (n ≤ 256) × (u < 256) × (v < n) × (base ≤ 144115188075855872) × (length m.old ≡ 256) × (length d.old ≡ 256) × Blocks n m.old d.old b.old }
    ensures { RelaxedAt (step_in c.now) (key_in c.now w.now) u v base m.old d.old m.new d.new × Blocks n m.new d.new b.new }
{
    let h = c[u * 256 + v];
    if h == 0 {
        return;
    }
    let key = by(base, cost_of(w, h));
    if m[v] == 0 {
        label(n, v, key, m, d, b);
        return;
    }
    if m[v] != 1 {
        return;
    }
    if key < d[v] {
        label(n, v, key, m, d, b);
    }
}

// The steps of the settled number u, by its list.
pub fn relax(
    c: &[u8; 65536],
    w: &[u32; 256],
    lists: &[u8; 65536],
    counts: &[u32; 256],
    n: usize,
    u: usize,
    m: &mut [u8; 256],
    d: &mut [u64; 256],
    b: &mut [u64; 16],
)
    requires { (n ≤ 256) × (u < n) × (length m.old ≡ 256) × (length d.old ≡ 256) × (get_or d.old u 0 ≤ 144115188075855872) × Blocks n m.old d.old b.old × Listed c.now lists.now counts.now × Within n c.now }
    ensures { Relaxed (step_in c.now) (key_in c.now w.now) 281474976710656 n u m.old d.old m.new d.new × Blocks n m.new d.new b.new }
{
    let base = d[u];
    let end = counts[u] as usize;
    for i in 0..end {
        relax_one(c, w, n, u, lists[u * 256 + i] as usize, base, m, d, b);
    }
}
