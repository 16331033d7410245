// The strong components of a matrix of steps: each record's class, by roots of which the latest finished comes first.
#![tactic(auto)]

ghost use Rattle.std.specs.Prelude.{◌≡◌, [], ◌<◌, ◌≤◌, length, take};
ghost use Rattle.layout.specs.Layout.{vertex_limit};
ghost use Rattle.graph.specs.Reach.{matrix};
ghost use Rattle.graph.specs.Bfs.{push, spread, bfs};
ghost use Rattle.graph.specs.Held.{Held, Marks};
ghost use Rattle.components.specs.Parts.{flagged, Tried, Partition};
ghost use Rattle.strong.specs.Strong.{mutually_reached, latest_first};
ghost use Rattle.strong.specs.State.{inside, Turned, Opened, Unparted};

// The records that are in no class.
fn free_records(ids: &[u32; 256], n: usize, free: &mut [u8; 256])
    requires { (n ≤ vertex_limit) × (length free.old ≡ vertex_limit) }
    ensures { Opened n ids.now free.new }
{
    for v in 0..n {
        free[v] = (ids[v] == 0) as u8;
    }
}

// j joins the queue where there is a step to it from x, it is free, and it is not in the queue.
fn touch(
    adj: &[u8; 65536],
    free: &[u8; 256],
    n: usize,
    x: usize,
    j: usize,
    marks: &mut [u8; 256],
    order: &mut [u32; 256],
    tail: usize,
) -> usize
    requires { (n ≤ 256) × (x < n) × (j < n) × Held n marks.old order.old tail (take tail order.old) }
    ensures { Held n marks.new order.new result (push (inside (matrix adj.now) (flagged free.now)) x (take tail order.old) j) }
{
    if adj[x * 256 + j] != 1 {
        return tail;
    }
    if free[j] != 1 {
        return tail;
    }
    if marks[j] != 0 {
        return tail;
    }
    marks[j] = 1;
    order[tail] = j as u32;
    tail + 1
}

// Every free number to which there is a step from x joins the queue. Where all are in it, none does.
fn expand(
    adj: &[u8; 65536],
    free: &[u8; 256],
    n: usize,
    x: usize,
    marks: &mut [u8; 256],
    order: &mut [u32; 256],
    tail: usize,
) -> usize
    requires { (n ≤ 256) × (x < n) × Held n marks.old order.old tail (take tail order.old) }
    ensures { Held n marks.new order.new result (spread (inside (matrix adj.now) (flagged free.now)) x n 0 (take tail order.old)) }
{
    if tail == n {
        return tail;
    }
    let mut end = tail;
    for j in 0..n {
        end = touch(adj, free, n, x, j, marks, order, end);
    }
    end
}

// Breadth first from `start` over free records.
fn serve(
    adj: &[u8; 65536],
    free: &[u8; 256],
    n: usize,
    start: usize,
    marks: &mut [u8; 256],
    order: &mut [u32; 256],
) -> usize
    requires { (n ≤ 256) × (start < n) × Held n marks.old order.old 0 [] }
    ensures { Held n marks.new order.new result (bfs (inside (matrix adj.now) (flagged free.now)) n start) }
{
    marks[start] = 1;
    order[0] = start as u32;
    let mut tail = 1;
    let mut head = 0;
    // The queue grows while it is read.
    while head < tail {
        let x = order[head] as usize;
        tail = expand(adj, free, n, x, marks, order, tail);
        head += 1;
    }
    tail
}

// Marks what is reached from `start` over free records.
fn reach_within(adj: &[u8; 65536], free: &[u8; 256], n: usize, start: usize, marks: &mut [u8; 256])
    requires { (n ≤ 256) × (start < n) }
    ensures { Marks n marks.new (bfs (inside (matrix adj.now) (flagged free.now)) n start) }
{
    let mut seen = [0u8; 256];
    let mut order = [0u32; 256];
    serve(adj, free, n, start, &mut seen, &mut order);
    *marks = seen;
}

// Where r is in no class, what is reached from it and reaches it becomes the next one: of the records in no class those that reach r,
// and of these what r reaches. `back` has the turned steps.
fn try_root(
    adj: &[u8; 65536],
    back: &[u8; 65536],
    n: usize,
    r: usize,
    c: u32,
    ids: &mut [u32; 256],
) -> u32
    requires { (n ≤ vertex_limit) × (r < n) × (c < vertex_limit) × (length ids.old ≡ vertex_limit) × Turned (matrix adj.now) (matrix back.now) n × Unparted (matrix adj.now) n ids.old }
    ensures { Tried (mutually_reached (matrix adj.now) n) n r ids.old c ids.new result }
{
    if ids[r] != 0 {
        return c;
    }
    let mut free = [0u8; 256];
    free_records(ids, n, &mut free);
    let mut reaching = [0u8; 256];
    reach_within(back, &free, n, r, &mut reaching);
    let mut marks = [0u8; 256];
    reach_within(adj, &reaching, n, r, &mut marks);
    components::join(&marks, n, c + 1, ids);
    c + 1
}

// The strong components. Answers how many there are.
pub fn part_strong(adj: &[u8; 65536], back: &[u8; 65536], n: usize, ids: &mut [u32; 256]) -> u32
    requires { (n ≤ vertex_limit) × Turned (matrix adj.now) (matrix back.now) n }
    ensures { Partition (mutually_reached (matrix adj.now) n) n (latest_first (matrix adj.now) n) ids.new result }
{
    let mut order = [0u32; 256];
    let t = depth::finish_order(adj, n, &mut order);
    let blank = [0u32; 256];
    *ids = blank;
    let mut c = 0;
    for k in (0..t).rev() {
        let r = order[k] as usize;
        c = try_root(adj, back, n, r, c, ids);
    }
    c
}
