// Depth first over a matrix of marks: the order in which numbers are finished, and the preorder from a start.
#![tactic(auto)]

ghost use Rattle.std.specs.Prelude.{◌≡◌, not, ◌&&◌, ◌+◌, ◌-◌, ◌<◌, ◌≤◌, eqb, length, get_or, take};
ghost use Rattle.graph.specs.Reach.{matrix};
ghost use Rattle.depth.specs.Dfs.{visits, tried};
ghost use Rattle.depth.specs.Finish.{start_at};
ghost use Rattle.depth.specs.Pre.{walks, preorder};
ghost use Rattle.depth.specs.Went.{Untried, Fit, Went};
ghost use Rattle.depth.specs.Swept.{Finishes};

// A step is not to be taken: there is none, or its end is marked. One sum, so that there is one branch.
fn hindered(entry: u8, mark: u8) -> bool
    ensures { result ≡ not (eqb entry 1 && eqb mark 0) }
{
    0 < (entry != 1) as usize + mark as usize
}

// How many neighbours are left to try after one of k: none, where every number is marked.
fn untried(n: usize, k: usize, marked: usize) -> usize
    requires { 0 < k }
    ensures { Untried n k marked result }
{
    if n <= marked {
        return 0;
    }
    k - 1
}

// x is visited: it is marked, its steps are tried, the largest neighbour first, and it is listed.
// Of the numbers that are marked, t are listed, and `begun` are being visited.
#[cycle(try_step_visit)]
fn visit(
    adj: &[u8; 65536],
    n: usize,
    x: usize,
    marks: &mut [u8; 256],
    out: &mut [u32; 256],
    t: usize,
    begun: usize,
) -> usize
    requires { (x < n) × (get_or marks.old x 0 ≡ 0) × Fit n marks.old out.old t begun }
    ensures { Went (λ f. visits (matrix adj.now) n f x) n marks.old out.old t marks.new out.new result }
{
    marks[x] = 1;
    let mut end = t;
    let mut k = n;
    // Counts no index: `untried` says how many neighbours are left to try, none once every number is marked.
    while 0 < k {
        end = try_step(adj, n, x, k, marks, out, end, begun + 1);
        k = untried(n, k, end + begun + 1);
    }
    out[end] = x as u32;
    end + 1
}

// The step from x to k - 1 is tried, where k neighbours are untried.
#[cycle(try_step_visit)]
fn try_step(
    adj: &[u8; 65536],
    n: usize,
    x: usize,
    k: usize,
    marks: &mut [u8; 256],
    out: &mut [u32; 256],
    t: usize,
    begun: usize,
) -> usize
    requires { (x < n) × (0 < k) × (k ≤ n) × Fit n marks.old out.old t begun }
    ensures { Went (λ f. tried (matrix adj.now) (visits (matrix adj.now) n f) x (k - 1)) n marks.old out.old t marks.new out.new result }
{
    let j = k - 1;
    if hindered(adj[x * 256 + j], marks[j]) {
        return t;
    }
    visit(adj, n, j, marks, out, t, begun)
}

// A search from x, where x is not marked.
fn start_at(
    adj: &[u8; 65536],
    n: usize,
    x: usize,
    marks: &mut [u8; 256],
    out: &mut [u32; 256],
    t: usize,
) -> usize
    requires { (x < n) × Fit n marks.old out.old t 0 }
    ensures { Went (λ f. start_at (matrix adj.now) n f x) n marks.old out.old t marks.new out.new result }
{
    if marks[x] != 0 {
        return t;
    }
    visit(adj, n, x, marks, out, t, 0)
}

// The numbers below n as a search from ascending starts finishes them.
pub fn finish_order(adj: &[u8; 65536], n: usize, order: &mut [u32; 256]) -> usize
    requires { n ≤ 256 }
    ensures { Finishes (matrix adj.now) n result order.new }
{
    let mut marks = [0u8; 256];
    let mut out = [0u32; 256];
    let mut t = 0;
    for x in 0..n {
        t = start_at(adj, n, x, &mut marks, &mut out, t);
    }
    *order = out;
    t
}

// x is visited in preorder: it is marked and listed, and its steps are tried, the smallest neighbour first.
#[cycle(enter_try_enter)]
fn enter(
    adj: &[u8; 65536],
    n: usize,
    x: usize,
    marks: &mut [u8; 256],
    out: &mut [u32; 256],
    t: usize,
) -> usize
    requires { (x < n) × (get_or marks.old x 0 ≡ 0) × Fit n marks.old out.old t 0 }
    ensures { Went (λ f. walks (matrix adj.now) n f x) n marks.old out.old t marks.new out.new result }
{
    marks[x] = 1;
    out[t] = x as u32;
    let mut end = t + 1;
    let mut k = n;
    // Counts no index: `untried` says how many neighbours are left to try, none once every number is marked.
    while 0 < k {
        end = try_enter(adj, n, x, k, marks, out, end);
        k = untried(n, k, end);
    }
    end
}

// The step from x to n - k is tried, where k neighbours are untried.
#[cycle(enter_try_enter)]
fn try_enter(
    adj: &[u8; 65536],
    n: usize,
    x: usize,
    k: usize,
    marks: &mut [u8; 256],
    out: &mut [u32; 256],
    t: usize,
) -> usize
    requires { (x < n) × (0 < k) × (k ≤ n) × Fit n marks.old out.old t 0 }
    ensures { Went (λ f. tried (matrix adj.now) (walks (matrix adj.now) n f) x (n - k)) n marks.old out.old t marks.new out.new result }
{
    let j = n - k;
    if hindered(adj[x * 256 + j], marks[j]) {
        return t;
    }
    enter(adj, n, j, marks, out, t)
}

// The listing of the numbers that are reached from `start`, depth first in preorder, smallest neighbour first.
pub fn get_dfs(adj: &[u8; 65536], n: usize, start: usize, order: &mut [u32; 256]) -> usize
    requires { (n ≤ 256) × (start < n) }
    ensures { (take result order.new ≡ preorder (matrix adj.now) n start) × (result ≡ length (preorder (matrix adj.now) n start)) }
{
    let mut marks = [0u8; 256];
    let mut out = [0u32; 256];
    let r = enter(adj, n, start, &mut marks, &mut out, 0);
    *order = out;
    r
}
