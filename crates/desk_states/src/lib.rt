// The lent states: whether they fit, how they follow their vertices when some are removed, and how they begin anew.
#![tactic(auto)]

ghost use Rattle.std.specs.Prelude.{◌≡◌, cond, ◌<◌, ◌≤◌, eqb, length, take};
ghost use Rattle.layout.specs.Layout.{limit, vertex_limit, size, vertex_count};
ghost use Rattle.layout.specs.Inner.{vertex_column};
ghost use Rattle.layout.specs.Answers.{number};
ghost use Rattle.desk.specs.States.{states_fit, state_in, states_by, all_waiting};
ghost use Rattle.desk.specs.Desk.{desk_of};
ghost use Rattle.desk_states.specs.Open.{is_open};
ghost use Rattle.desk_states.specs.Following.{Noted, Survivors, StateTurn, followed, Followable};

use edits::shift::clear_words;
use formed::all_below;
use layout::Answer;

// Whether the states fit a table of n live vertices.
pub fn states_fit(s: &[u32], n: usize) -> bool
    requires { n ≤ vertex_limit }
    ensures { result ≡ states_fit n s.now }
{
    if s.len() != layout::VERTEX_LIMIT {
        return false;
    }
    if !all_below(s, 3) {
        return false;
    }
    all_below(&s[n..], 1)
}

// Whether table and states have their lengths and the states fit the table's count: all that an edit need test before the edit of the table.
pub fn is_open(t: &[u32], s: &[u32]) -> bool
    ensures { result ≡ is_open (desk_of t.now s.now) }
{
    if t.len() != layout::SIZE {
        return false;
    }
    let n = layout::vertex_count(t);
    if layout::VERTEX_LIMIT < n {
        return false;
    }
    states_fit(s, n)
}

// The numbers of the vertices, in the records' order.
pub fn note_numbers(t: &[u32]) -> [u32; 256]
    requires { (length t.now ≡ size limit) × (vertex_count t.now ≤ vertex_limit) }
    ensures { Noted t.now result }
{
    let n = layout::vertex_count(t);
    let mut numbers = [0; 256];
    for i in 0..n {
        numbers[i] = layout::vertex_number(t, i);
    }
    numbers
}

// Moves the state of the record that was record i down to record k where that has its number, and says the next k.
fn move_state(t: &[u32], numbers: &[u32; 256], s: &mut [u32], i: usize, k: usize) -> usize
    requires t_len { (length t.now ≡ size limit) × (length s.old ≡ vertex_limit) }
    requires i_lt_vertex_limit { (i < vertex_limit) × (k ≤ i) }
    ensures { StateTurn numbers.now t.now i k s.old result s.new }
{
    if layout::vertex_count(t) <= k {
        return k;
    }
    if layout::vertex_number(t, k) != numbers[i] {
        return k;
    }
    s[k] = s[i];
    k + 1
}

// The states follow: t is the table after some vertices are removed, numbers the n that were noted before.
pub fn follow(t: &[u32], numbers: &[u32; 256], n: usize, s: &mut [u32])
    requires survivors { Survivors numbers.now n t.now }
    requires s_len { length s.old ≡ vertex_limit }
    ensures { s.new ≡ states_by (state_in (take n numbers.now) s.old) (vertex_column t.now) }
{
    let mut k = 0;
    for i in 0..n {
        k = move_state(t, numbers, s, i, k);
    }
    clear_words(s, k, layout::VERTEX_LIMIT - k);
}

// Whether the answer is that of a call that is done.
pub fn is_done(a: Answer) -> bool
    ensures { result ≡ eqb (number a) 0 }
{
    a.is_ok()
}

// Where the answer is that of a call that is done, the states follow.
pub fn follow_done(t: &[u32], numbers: &[u32; 256], n: usize, s: &mut [u32], a: Answer)
    requires { Followable a numbers.now n t.now s.old }
    ensures { s.new ≡ followed a (take n numbers.now) s.old (vertex_column t.now) }
{
    if !is_done(a) {
        return;
    }
    follow(t, numbers, n, s);
}

// Where the answer is that of a call that is done, every record waits.
pub fn renew(s: &mut [u32], a: Answer)
    requires { length s.old ≡ vertex_limit }
    ensures { s.new ≡ cond (eqb (number a) 0) all_waiting s.old }
{
    if !is_done(a) {
        return;
    }
    clear_words(s, 0, layout::VERTEX_LIMIT);
}
