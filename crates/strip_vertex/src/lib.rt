// A vertex taken out of every list, and emptied lists dropped.
#![tactic(auto)]

ghost use Rattle.std.specs.Prelude.{◌≡◌, ◌+◌, ◌<◌, ◌≤◌, length, take, drop, ltb};
ghost use Rattle.std.proofs.Math.Seq.{paste};
ghost use Rattle.lists.specs.Tests.{bit};
ghost use Rattle.layout.specs.Layout.{limit, hyperedge_limit, record_size, size, hyperedge_count, hyperedge_word, hyperedge_at, hyperedge_words, count_at, read, words};
ghost use Rattle.layout.specs.Inner.{Formed};
ghost use Rattle.edits.specs.Edits.{without};
ghost use Rattle.edits.specs.Removing.{other_words, Stripped, strip_vertex};

use edits::records::end_record;
use edits::shift::clear_words;

// Moves those of the n words from `from` on that are not v to `to` on, and says how many.
fn keep_others(t: &mut [u32], from: usize, to: usize, n: usize, v: u32) -> usize
    requires { (from + n ≤ length t.old) × (to ≤ from) }
    ensures { (result ≤ n) × ((result ≡ length (other_words v (take n (drop from t.old)))) × (t.new ≡ paste t.old to (other_words v (take n (drop from t.old))) result)) }
{
    let mut c = 0;
    for i in 0..n {
        let x = t[from + i];
        if x != v {
            t[to + c] = x;
            c += 1;
        }
    }
    c
}

// Writes record j without v to record k's place, and says how many members are left.
fn strip_record(t: &mut [u32], j: usize, k: usize, v: u32) -> usize
    requires { (length t.old ≡ size limit) × ((j < hyperedge_limit) × ((k ≤ j) × (count_at limit t.old j ≤ limit))) }
    ensures { (result ≡ length (without v (hyperedge_at limit t.old j)).members) × (t.new ≡ paste t.old (hyperedge_word limit k) (hyperedge_words limit (without v (hyperedge_at limit t.old j))) (record_size limit)) }
{
    let n = layout::member_count(t, j);
    let b = layout::HYPEREDGES_AT + j * layout::RECORD_SIZE;
    let a = layout::HYPEREDGES_AT + k * layout::RECORD_SIZE;
    let x = t[b];
    let w = t[b + 1];
    let c = keep_others(t, b + 3, a + 3, n, v);
    end_record(t, k, x, w, c);
    c
}

// The place after k, where c members were left at k; k again where none was.
fn next_place(k: usize, c: usize) -> usize
    requires { k < hyperedge_limit }
    ensures { result ≡ k + bit (ltb 0 c) }
{
    if c == 0 {
        return k;
    }
    k + 1
}

// Writes the m records without v one after the other, but for those that held it alone, and says how many.
fn strip_records(t: &mut [u32], m: usize, v: u32) -> usize
    requires formed { Formed limit t.old }
    requires m_value { m ≡ hyperedge_count t.old }
    ensures { Stripped limit v t.old m result t.new }
{
    let mut k = 0;
    for j in 0..m {
        let c = strip_record(t, j, k, v);
        k = next_place(k, c);
    }
    k
}

// Filters v out of every list, and drops the lists that held it alone.
pub fn strip_vertex(t: &mut [u32], v: u32)
    requires { Formed limit t.old }
    ensures { t.new ≡ words limit (strip_vertex v (read limit t.old)) }
{
    let m = layout::hyperedge_count(t);
    let k = strip_records(t, m, v);
    let a = layout::HYPEREDGES_AT + k * layout::RECORD_SIZE;
    clear_words(t, a, layout::SIZE - a);
    t[3] = k as u32;
}
