// Lists in any order: each as its length and its members. The recorded sum is the sum of the lists' own sums, high bits dropped, so that
// the order of the lists does not count.
// The answer of a pair of vertices. Of the path that is recorded its cost and how many entries it has: another path may be as cheap, and
// ours has the fewest entries of those. It has to begin at the first vertex, with no hyperedge, and to end at the second.
#![tactic(auto)]

ghost use Rattle.std.specs.Prelude.{◌≡◌, ◌+◌, ◌*◌};
ghost use Rattle.layout.specs.Answers.{number, detail};
ghost use Rattle.replay.specs.Judging.{after_count, counted_at, is_whole, same_cost, begins, same_ends, same_path, path_at, closed, one_word, rows_after, lists_read};

use layout::{Answer, Reply};
use replay::tally::count;
use replay::{Ends, Rows};
use replay_judge::{START, at_most, both, given, mix, same_reply, summed, word_of};
use replay_reading::word;

// Where the vertex of the last of n entries stands.
fn last_of(n: u32) -> usize
    ensures { result ≡ 2 * n + 1 }
{
    2 * (n as usize) + 1
}

// Whether the first entry is the first vertex, with no hyperedge.
fn begins(e: Ends, out: &[u32]) -> bool
    ensures { result ≡ begins e out.now }
{
    word_of(out, 3) == e.from && word_of(out, 4) == 4294967295
}

fn same_ends(e: Ends, n: u32, out: &[u32]) -> bool
    ensures { result ≡ same_ends e n out.now }
{
    if n == 0 {
        return e.entries == 0;
    }
    begins(e, out) && word_of(out, last_of(n)) == e.to
}

fn words_of(n: u32) -> u64
    ensures { result ≡ 3 + 2 * n }
{
    3 + 2 * (n as u64)
}

// Whether the answer is 0, with all words of n entries.
fn is_whole(r: Reply, n: u32) -> bool
    ensures { result ≡ is_whole r.number r.detail n }
{
    r.number == 0 && r.detail == words_of(n)
}

fn same_cost(e: Ends, out: &[u32]) -> bool
    ensures { result ≡ same_cost e out.now }
{
    word_of(out, 0) == e.low && word_of(out, 1) == e.high
}

fn same_path(r: Reply, e: Ends, out: &[u32]) -> bool
    ensures { result ≡ same_path r.number r.detail e out.now }
{
    let n = word_of(out, 2);
    if n > e.entries {
        return false;
    }
    if !is_whole(r, n) {
        return false;
    }
    same_cost(e, out) && same_ends(e, n, out)
}

// The detail that is recorded with answer 0 is the count of the entries; the cost's low and high word follow.
pub fn answer(
    s: &[u8],
    at: usize,
    a: Answer,
    from: u32,
    to: u32,
    out: &[u32],
    f: usize,
    tally: &mut [u32],
) -> usize
    ensures { after_count result tally.new ≡ counted_at f (path_at s.now at (number a) (detail a) from to out.now) tally.old }
{
    let g = given(s, at);
    let r = Reply::from(a);
    if g.number != 0 {
        count(tally, f, same_reply(r, g));
        return g.at;
    }
    let low = word(s, g.at);
    let high = word(s, low.at);
    let e = Ends {
        from,
        to,
        low: low.value,
        high: high.value,
        entries: g.detail,
    };
    count(tally, f, same_path(r, e, out));
    high.at
}

fn closed(r: Rows) -> Rows
    ensures { result ≡ closed r }
{
    if r.left != 0 {
        return r;
    }
    Rows {
        left: 0,
        row: START,
        total: r.total.wrapping_add(r.row),
    }
}

fn more(r: Rows, word: u32) -> Rows
    ensures { result ≡ one_word r word }
{
    let row = mix(r.row, word);
    if r.left == 0 {
        return closed(Rows {
            left: word,
            row,
            total: r.total,
        });
    }
    closed(Rows {
        left: r.left - 1,
        row,
        total: r.total,
    })
}

fn sum(out: &[u32], n: usize) -> u64
    ensures { result ≡ (rows_after out.now n).total }
{
    let mut r = Rows {
        left: 0,
        row: START,
        total: 0,
    };
    for k in 0..n {
        let next = more(r, word_of(out, k));
        r = next;
    }
    r.total
}

// An answer with the lists that it wrote.
pub fn listing(s: &[u8], at: usize, a: Answer, out: &[u32], f: usize, tally: &mut [u32]) -> usize
    ensures { after_count result tally.new ≡ counted_at f (lists_read s.now at (number a) (detail a) out.now) tally.old }
{
    let g = given(s, at);
    let same = same_reply(Reply::from(a), g);
    if g.number != 0 {
        count(tally, f, same);
        return g.at;
    }
    let h = summed(s, g.at, sum(out, at_most(g.detail as usize, out.len())));
    count(tally, f, both(same, h.same));
    h.at
}
