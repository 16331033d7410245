// A vertex renamed in every list.
#![tactic(auto)]

ghost use Rattle.std.specs.Prelude.{◌≡◌, map, ◌+◌, ◌<◌, ◌≤◌, length, take, drop};
ghost use Rattle.std.proofs.Math.Seq.{paste};
ghost use Rattle.layout.specs.Layout.{limit, hyperedge_limit, size, hyperedge_word, count_at, members_at, read, words};
ghost use Rattle.layout.specs.Inner.{Formed};
ghost use Rattle.edits.specs.Edits.{read_as, rename_vertex};

// x, with w read as v.
fn read_as(x: u32, v: u32, w: u32) -> u32
    ensures { result ≡ read_as v w x }
{
    if x == w {
        return v;
    }
    x
}

// Each w of the n words from a on becomes v. Every word is stored, so that the compiler can take several at a time.
fn rename_words(t: &mut [u32], a: usize, n: usize, v: u32, w: u32)
    requires { a + n ≤ length t.old }
    ensures { t.new ≡ paste t.old a (map (read_as v w) (take n (drop a t.old))) n }
{
    for i in 0..n {
        t[a + i] = read_as(t[a + i], v, w);
    }
}

// Each w among the members of record j becomes v.
fn rename_record(t: &mut [u32], j: usize, v: u32, w: u32)
    requires { (length t.old ≡ size limit) × ((j < hyperedge_limit) × (count_at limit t.old j ≤ limit)) }
    ensures { t.new ≡ paste t.old (hyperedge_word limit j + 3) (map (read_as v w) (members_at limit t.old j)) (count_at limit t.old j) }
{
    let n = layout::member_count(t, j);
    let a = layout::HYPEREDGES_AT + j * layout::RECORD_SIZE + 3;
    rename_words(t, a, n, v, w);
}

// Each w in every list becomes v.
pub fn rename_vertex(t: &mut [u32], v: u32, w: u32)
    requires { Formed limit t.old }
    ensures { t.new ≡ words limit (rename_vertex v w (read limit t.old)) }
{
    let m = layout::hyperedge_count(t);
    for j in 0..m {
        rename_record(t, j, v, w);
    }
}
