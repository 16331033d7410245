// What the edits store in a table's words.
ghost use Rattle.std.specs.Prelude.{◌≡◌, ◌+◌, ◌≤◌, ◌<◌, length, replicate};
ghost use Rattle.layout.specs.Layout.{limit, hyperedge_limit, size, hyperedge_word};
ghost use Rattle.lists.specs.Inner.{over_at};
ghost use Rattle.edits.specs.Records.{member_words, record_ended};

use crate::shift::clear_words;

// The number that is never given.
pub const LAST_NUMBER: u32 = 4294967295;

// Stores the list from word a on.
pub fn store(t: &mut [u32], a: usize, list: &[u32])
    requires { a + length list.now ≤ length t.old }
    ensures { t.new ≡ over_at a list.now t.old }
{
    for i in 0..list.len() {
        t[a + i] = list[i];
    }
}

// Stores n words of 0 from word a on.
pub fn store_zeros(t: &mut [u32], a: usize, n: usize)
    requires { a + n ≤ length t.old }
    ensures { t.new ≡ over_at a (replicate n 0) t.old }
{
    t[a..a + n].fill(0);
}

// Stores the member list of record j: its count, its members, and 0 in the words behind them.
pub fn put_members(t: &mut [u32], j: usize, members: &[u32])
    requires { (length t.old ≡ size limit) × ((j < hyperedge_limit) × (length members.now ≤ limit)) }
    ensures { t.new ≡ over_at (hyperedge_word limit j + 2) (member_words limit members.now) t.old }
{
    let n = members.len();
    let a = layout::HYPEREDGES_AT + j * layout::RECORD_SIZE + 2;
    t[a] = n as u32;
    store(t, a + 1, members);
    store_zeros(t, a + 1 + n, layout::MEMBER_LIMIT - n);
}

// Ends record k, whose c members are stored: 0 in the words behind them, and number x, weight w and the count before them.
pub fn end_record(t: &mut [u32], k: usize, x: u32, w: u32, c: usize)
    requires { (length t.old ≡ size limit) × ((k < hyperedge_limit) × (c ≤ limit)) }
    ensures { t.new ≡ record_ended limit k x w c t.old }
{
    let a = layout::HYPEREDGES_AT + k * layout::RECORD_SIZE;
    clear_words(t, a + 3 + c, layout::MEMBER_LIMIT - c);
    t[a] = x;
    t[a + 1] = w;
    t[a + 2] = c as u32;
}
