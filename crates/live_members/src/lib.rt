// Whether every member is live.
#![tactic(auto)]

ghost use Rattle.std.specs.Prelude.{◌≡◌, true, ◌<◌, ◌≤◌, length};
ghost use Rattle.lists.specs.Tests.{every};
ghost use Rattle.lists.specs.Lists.{Ascending};
ghost use Rattle.layout.specs.Content.{is_live};
ghost use Rattle.layout.specs.Layout.{limit, vertex_limit, hyperedge_limit, vertex_size, vertices_at, size, count_at};
ghost use Rattle.layout.specs.WellFormed.{record_shaped};
ghost use Rattle.layout.specs.Inner.{column};
ghost use Rattle.formed.specs.Records.{record_live};

// A copy of the first n vertex numbers, for `place`: a hint, of which nothing is promised.
fn copy_numbers(t: &[u32], n: usize) -> [u32; 256]
    requires { (length t.now ≡ size limit) × (n ≤ vertex_limit) }
{
    let mut numbers = [4294967295; 256];
    for i in 0..n {
        numbers[i] = layout::vertex_number(t, i);
    }
    numbers
}

// 1 where x is not below a, else 0.
fn reached(a: u32, x: u32) -> u32
    ensures { result ≤ 1 }
{
    if a <= x {
        return 1;
    }
    0
}

// In which eighth of the numbers each member would stand: a hint, of which nothing is promised. The members do not wait
// for one another, so that the compiler can take several at a time.
fn guess_eighths(numbers: &[u32; 256], ms: &[u32], eighths: &mut [u32; 256])
    requires { length ms.now ≤ vertex_limit }
{
    let a = numbers[32];
    let b = numbers[64];
    let c = numbers[96];
    let d = numbers[128];
    let e = numbers[160];
    let f = numbers[192];
    let g = numbers[224];
    for i in 0..ms.len() {
        let x = ms[i];
        let low = reached(a, x) + reached(b, x) + reached(c, x);
        let high = reached(d, x) + reached(e, x) + reached(f, x) + reached(g, x);
        eighths[i] = low + high;
    }
}

// Where x would stand among the numbers, by five halvings of the eighth that was guessed.
fn place(numbers: &[u32; 256], eighth: u32, x: u32) -> usize
    ensures { result < 256 }
{
    let mut p = eighth as usize % 8 * 32;
    let mut half = 16;
    // It counts no index: half is halved each turn.
    while 0 < half {
        if numbers[p + half] <= x {
            p += half;
        }
        half /= 2;
    }
    p
}

// Whether x is among the n live vertices: at the place that the hint gives, or by a search.
fn is_live(t: &[u32], n: usize, numbers: &[u32; 256], eighth: u32, x: u32) -> bool
    requires t_len { (length t.now ≡ size limit) × (n ≤ vertex_limit) }
    requires ascending { Ascending (column t.now vertices_at vertex_size n) }
    ensures { result ≡ is_live (column t.now vertices_at vertex_size n) x }
{
    let p = place(numbers, eighth, x);
    if p < n {
        if layout::vertex_number(t, p) == x {
            return true;
        }
    }
    find::find_number(t, layout::VERTICES_AT, layout::VERTEX_SIZE, n, x).is_some()
}

fn members_live(
    t: &[u32],
    n: usize,
    numbers: &[u32; 256],
    eighths: &mut [u32; 256],
    j: usize,
) -> bool
    requires t_len { (length t.now ≡ size limit) × ((n ≤ vertex_limit) × (j < hyperedge_limit)) }
    requires j_bound { count_at limit t.now j ≤ limit }
    requires ascending { Ascending (column t.now vertices_at vertex_size n) }
    ensures { result ≡ record_live limit (column t.now vertices_at vertex_size n) t.now j }
{
    let ms = layout::members(t, j);
    guess_eighths(numbers, ms, eighths);
    for i in 0..ms.len() {
        if !is_live(t, n, numbers, eighths[i], ms[i]) {
            return false;
        }
    }
    true
}

pub fn all_members_live(t: &[u32], n: usize, m: usize) -> bool
    requires t_len { (length t.now ≡ size limit) × ((n ≤ vertex_limit) × (m ≤ hyperedge_limit)) }
    requires m_value { every (record_shaped limit t.now) m ≡ true }
    requires ascending { Ascending (column t.now vertices_at vertex_size n) }
    ensures { result ≡ every (record_live limit (column t.now vertices_at vertex_size n) t.now) m }
{
    let numbers = copy_numbers(t, n);
    let mut eighths = [0u32; 256];
    for j in 0..m {
        if !members_live(t, n, &numbers, &mut eighths, j) {
            return false;
        }
    }
    true
}
