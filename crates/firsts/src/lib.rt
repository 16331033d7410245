// The first places of the members of each list.
#![tactic(auto)]

ghost use Rattle.std.specs.Prelude.{◌≡◌, ◌<◌, ◌+◌, length, set};
ghost use Rattle.lists.specs.Lists.{memb};
ghost use Rattle.layout.specs.Layout.{limit, vertex_limit, hyperedge_count};
ghost use Rattle.layout.specs.Inner.{Formed};
ghost use Rattle.steps.specs.Inner.{cell};
ghost use Rattle.walk.specs.Passes.{is_first, FirstsMarked, Firsts};

// Whether v stands in the list. No word is skipped, so that the compiler can take several at a time.
fn lists_vertex(ms: &[u32], v: u32) -> bool
    ensures { result ≡ memb v ms.now }
{
    let mut found = false;
    for i in 0..ms.len() {
        if ms[i] == v {
            found = true;
        }
    }
    found
}

// Whether what stands at place p stands at no place before.
fn is_first(ms: &[u32], p: usize) -> bool
    requires { p < length ms.now }
    ensures { result ≡ is_first ms.now p }
{
    !lists_vertex(&ms[..p], ms[p])
}

// The mark of place p of record j.
fn mark(j: usize, p: usize, first: bool, firsts: &mut [bool; 65536])
    requires { (j < vertex_limit) × (p < vertex_limit) }
    ensures { firsts.new ≡ set firsts.old (cell j p) first }
{
    firsts[j * layout::VERTEX_LIMIT + p] = first;
}

// The places of record j.
fn judge_record(t: &[u32], j: usize, firsts: &mut [bool; 65536])
    requires formed { Formed limit t.now }
    requires j_bound { (j < hyperedge_count t.now) × FirstsMarked t.now j 0 firsts.old }
    ensures { FirstsMarked t.now (j + 1) 0 firsts.new }
{
    let ms = layout::members_formed(t, j);
    for p in 0..ms.len() {
        mark(j, p, is_first(ms, p), firsts);
    }
}

// The places of every record.
pub fn first_places(t: &[u32], firsts: &mut [bool; 65536])
    requires { Formed limit t.now }
    ensures { Firsts t.now firsts.new }
{
    let blank = [false; 65536];
    *firsts = blank;
    let k = layout::hyperedge_count(t);
    for j in 0..k {
        judge_record(t, j, firsts);
    }
}
