// A ring of the numbers below n along the steps that a matrix marks: from the lowest number on a closed walk back, till a number comes again.
#![tactic(auto)]

ghost use Rattle.std.specs.Prelude.{◌≡◌, true, ◌+◌, ◌<◌, ◌≤◌, length, take, drop};
ghost use Rattle.graph.specs.Reach.{matrix};
ghost use Rattle.graph.specs.Bfs.{bfs};
ghost use Rattle.graph.specs.Held.{Marks};
ghost use Rattle.components.specs.Parts.{flagged};
ghost use Rattle.rings.specs.Search.{leads_to, before, comes_back, ring_from, ring_of};
ghost use Rattle.rings.specs.State.{Tested, Begun, passed, Stands};

fn leads_to(adj: &[u8; 65536], marks: &[u8; 256], y: usize, j: usize) -> bool
    requires { (y < 256) × (j < 256) }
    ensures { result ≡ leads_to (matrix adj.now) (flagged marks.now) y j }
{
    if adj[j * 256 + y] != 1 {
        return false;
    }
    marks[j] == 1
}

// The lowest marked number that has a step to y, or n.
fn before(adj: &[u8; 65536], n: usize, marks: &[u8; 256], y: usize) -> usize
    requires { (n ≤ 256) × (y < n) }
    ensures { result ≡ before (matrix adj.now) n (flagged marks.now) y }
{
    for j in 0..n {
        if leads_to(adj, marks, y, j) {
            return j;
        }
    }
    n
}

// Whether x lies on a closed walk; what is reached from it is marked.
fn comes_back(adj: &[u8; 65536], n: usize, x: usize, marks: &mut [u8; 256]) -> bool
    requires { (n ≤ 256) × (x < n) }
    ensures { Tested (matrix adj.now) n x result marks.new }
{
    graph::marks_from(adj, n, x, marks);
    before(adj, n, marks, x) < n
}

// The lowest number on a closed walk, or n; what is reached from it is marked.
fn lowest(adj: &[u8; 65536], n: usize, marks: &mut [u8; 256]) -> usize
    requires { n ≤ 256 }
    ensures { Begun (matrix adj.now) n result marks.new }
{
    for x in 0..n {
        if comes_back(adj, n, x, marks) {
            return x;
        }
    }
    n
}

// How many numbers of the path, from place a on, there are up to y; 0 where y is not among them.
fn met(path: &[u32; 256], a: usize, y: usize) -> usize
    requires { (a ≤ 256) × (length path.now ≡ 256) }
    ensures { result ≡ length (passed y (drop a path.now)) }
{
    for i in a..256 {
        if layout::wide(path[i]) == y {
            return i + 1 - a;
        }
    }
    0
}

// Copies c words of the path, from place a on, to the front of `order`.
fn to_front(path: &[u32; 256], a: usize, c: usize, order: &mut [u32; 256])
    requires { (a + c ≤ 256) × (length path.now ≡ 256) }
    ensures { take c order.new ≡ take c (drop a path.now) }
{
    let mut front = [0u32; 256];
    for j in 0..c {
        front[j] = path[a + j];
    }
    *order = front;
}

// Goes back from x, and puts the ring in the first places of `order`.
fn go_back(
    adj: &[u8; 65536],
    n: usize,
    marks: &[u8; 256],
    x: usize,
    order: &mut [u32; 256],
) -> usize
    requires n_bound { (n ≤ 256) × (x < n) }
    requires marks { Marks n marks.now (bfs (matrix adj.now) n x) × (comes_back (matrix adj.now) n x ≡ true) }
    ensures { Stands (ring_from (matrix adj.now) n x) order.new result }
{
    let mut path = [0u32; 256];
    let mut a = 256;
    let mut y = x;
    let mut c = 0;
    // Counts no index: it ends where a number comes again. A `for` would want an answer after its last round too.
    while c == 0 {
        a -= 1;
        path[a] = y as u32;
        y = before(adj, n, marks, y);
        c = met(&path, a, y);
    }
    to_front(&path, a, c, order);
    c
}

// The ring that is found, in the first places of `order`, and how many numbers it has; 0 where no walk is closed.
pub fn find_ring(adj: &[u8; 65536], n: usize, order: &mut [u32; 256]) -> usize
    requires { n ≤ 256 }
    ensures { Stands (ring_of (matrix adj.now) n) order.new result }
{
    let mut marks = [0u8; 256];
    let x = lowest(adj, n, &mut marks);
    if n <= x {
        return 0;
    }
    go_back(adj, n, &marks, x, order)
}
