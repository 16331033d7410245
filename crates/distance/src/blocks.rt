// The least key of each block of 16 numbers, so that the nearest number is found without going through all.
ghost use Rattle.std.specs.Prelude.{◌≡◌, ◌⊎◌, ℕ, ◌+◌, ◌-◌, ◌*◌, ◌<◌, ◌≤◌, get_or};
ghost use Rattle.distance.specs.Labels.{Nearest};
ghost use Rattle.distance.specs.Blocks.{far_key, Open, Nearer, Block, Blocks, Lowest, has_key};
ghost use Rattle.order.specs.Least.{least};

// A place and its key.
#[derive(Clone, Copy)]
struct Near {
    at: usize,
    key: u64,
}

// 0 for the mark of a labelled number, above every key for any other.
fn far(mark: u8) -> u64
    ensures { result ≡ far_key mark }
{
    if mark == 1 {
        return 0;
    }
    9223372036854775808
}

// The key of a labelled number; above every key where it is not labelled or is settled.
fn open_key(mark: u8, key: u64) -> u64
    ensures { Open mark key result }
{
    let f = far(mark);
    if key < f {
        return f;
    }
    key
}

// The lesser of two keys.
pub fn lesser(a: u64, b: u64) -> u64
    ensures { (result ≤ a) × (result ≤ b) × ((result ≡ a) ⊎ (result ≡ b)) }
{
    if b < a {
        return b;
    }
    a
}

// The number after the last one of block j, or n.
fn block_end(n: usize, j: usize) -> usize
    requires { (n ≤ 256) × (j * 16 ≤ n) }
    ensures { (j * 16 ≤ result) × (result ≤ n) × (result ≤ j * 16 + 16) × ((result ≡ n) ⊎ (result ≡ j * 16 + 16)) }
{
    if n < j * 16 + 16 {
        return n;
    }
    j * 16 + 16
}

// The least key of the labelled numbers of block j, or a far one.
pub fn block_key(n: usize, m: &[u8; 256], d: &[u64; 256], j: usize) -> u64
    requires { (n ≤ 256) × (j * 16 ≤ n) }
    ensures { Block n m.now d.now j result }
{
    let end = block_end(n, j);
    let mut key = 9223372036854775808;
    for v in j * 16..end {
        let next = lesser(key, open_key(m[v], d[v]));
        key = next;
    }
    key
}

// The nearer of the nearest so far and v.
fn nearer(p: Near, v: usize, key: u64) -> Near
    ensures { Nearer p.at p.key v key result.at result.key }
{
    if key < p.key {
        return Near { at: v, key: key };
    }
    p
}

// The block of least key.
fn lowest(b: &[u64; 16]) -> Near
    ensures { Lowest b.now 16 result.at result.key }
{
    let mut p = Near { at: 0, key: b[0] };
    for j in 1..16 {
        let next = nearer(p, j, b[j]);
        p = next;
    }
    p
}

// Whether v is labelled with the key.
fn has_key(m: &[u8; 256], d: &[u64; 256], key: u64, v: usize) -> bool
    requires { v < 256 }
    ensures { result ≡ has_key m.now d.now key v }
{
    if m[v] != 1 {
        return false;
    }
    d[v] == key
}

// The first number from `from` on that is labelled with the key, or n.
fn first_of(n: usize, m: &[u8; 256], d: &[u64; 256], key: u64, from: usize) -> usize
    requires { (n ≤ 256) × (from ≤ n) }
    ensures { result ≡ least (has_key m.now d.now key) (n - from) from }
{
    for v in from..n {
        if has_key(m, d, key, v) {
            return v;
        }
    }
    n
}

// The labelled number of least key, or n.
pub fn pick(n: usize, m: &[u8; 256], d: &[u64; 256], b: &[u64; 16]) -> usize
    requires { (n ≤ 256) × ((v : ℕ) → v < n → get_or m.now v 0 ≡ 1 → get_or d.now v 0 < 9223372036854775808) × Blocks n m.now d.now b.now }
    ensures { Nearest n m.now d.now result }
{
    let p = lowest(b);
    if 9223372036854775808 <= p.key {
        return n;
    }
    first_of(n, m, d, p.key, p.at * 16)
}
