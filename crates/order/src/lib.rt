// The sort of the numbers below n along the steps that a matrix marks: each next number is the smallest that waits for none.
#![tactic(auto)]

ghost use Rattle.std.specs.Prelude.{◌≡◌, true, not, ◌+◌, ◌-◌, ◌<◌, ◌≤◌, eqb};
ghost use Rattle.lists.specs.Tests.{◌and◌, bit, every};
ghost use Rattle.graph.specs.Reach.{matrix};
ghost use Rattle.order.specs.Least.{least};
ghost use Rattle.order.specs.Post.{Sorted};
ghost use Rattle.order.specs.State.{Degrees, Row, Owed, is_free, busy};

// What stands in place of a number's count once the number is placed: no count reaches it.
const PLACED: u16 = 512;

// How many numbers are looked at together.
const BLOCK: usize = 32;

fn more(d: u16, mark: u8) -> u16
    requires { d ≤ 256 }
    ensures { result ≡ d + bit (eqb mark 1) }
{
    if mark == 1 { d + 1 } else { d }
}

fn less(d: u16, mark: u8) -> u16
    requires { eqb mark 1 ≡ true → 0 < d }
    ensures { d ≡ result + bit (eqb mark 1) }
{
    if mark == 1 { d - 1 } else { d }
}

// Each number to which u has a step waits for one more.
fn add_row(adj: &[u8; 65536], n: usize, u: usize, need: &mut [u16; 256])
    requires { (n ≤ 256) × (u < n) × Degrees (matrix adj.now) n u need.old }
    ensures { Row (matrix adj.now) n u need.old need.new }
{
    for w in 0..n {
        need[w] = more(need[w], adj[u * 256 + w]);
    }
}

// v is placed: each number to which it has a step waits for one fewer.
fn settle(adj: &[u8; 65536], n: usize, v: usize, need: &mut [u16; 256])
    requires { (n ≤ 256) × (v < n) × Owed (matrix adj.now) n v need.old }
    ensures { Row (matrix adj.now) n v need.new need.old }
{
    for w in 0..n {
        need[w] = less(need[w], adj[v * 256 + w]);
    }
}

// How many numbers have a step to each number.
fn degrees(adj: &[u8; 65536], n: usize, need: &mut [u16; 256])
    requires { (n ≤ 256) × Degrees (matrix adj.now) n 0 need.old }
    ensures { Degrees (matrix adj.now) n n need.new }
{
    for u in 0..n {
        add_row(adj, n, u, need);
    }
}

fn still(none: bool, d: u16) -> bool
    ensures { result ≡ (none and not (eqb d 0)) }
{
    if d == 0 {
        return false;
    }
    none
}

// Whether none of the numbers of the block from j on is free. None is skipped, so that the compiler can take several at a time.
fn none_free(need: &[u16; 256], j: usize) -> bool
    requires { j + 32 ≤ 256 }
    ensures { result ≡ every (busy need.now j) 32 }
{
    let mut none = true;
    for i in 0..BLOCK {
        none = still(none, need[j + i]);
    }
    none
}

// How many numbers are left from the first block on in which one is free.
fn left(n: usize, need: &[u16; 256]) -> usize
    requires { n ≤ 256 }
    ensures { (result ≤ n) × (least (is_free need.now) result (n - result) ≡ least (is_free need.now) n 0) }
{
    let mut k = n;
    // The form with `for` is no plainer: k falls by whole blocks, and what is left is the answer.
    while BLOCK <= k {
        if !none_free(need, n - k) {
            return k;
        }
        k -= BLOCK;
    }
    k
}

// The first number that is not placed and waits for none, or n.
fn first(n: usize, need: &[u16; 256]) -> usize
    requires { n ≤ 256 }
    ensures { result ≡ least (is_free need.now) n 0 }
{
    for j in n - left(n, need)..n {
        if need[j] == 0 {
            return j;
        }
    }
    n
}

// The sort, in the first n places of `order`, and true; or false, where the steps form a closed walk.
pub fn sort(adj: &[u8; 65536], n: usize, order: &mut [u32; 256]) -> bool
    requires { n ≤ 256 }
    ensures { Sorted (matrix adj.now) n result order.new }
{
    let mut need = [0u16; 256];
    let mut out = [0u32; 256];
    degrees(adj, n, &mut need);
    let mut t = 0;
    let mut v = first(n, &need);
    // Counts no index: each next number is the first free one, until there is none.
    while v < n {
        need[v] = PLACED;
        out[t] = v as u32;
        settle(adj, n, v, &mut need);
        t += 1;
        v = first(n, &need);
    }
    *order = out;
    t == n
}
