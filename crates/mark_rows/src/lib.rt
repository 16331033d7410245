// Rows of marks: 256 rows of 256 marks, four words of 64 marks a row.
#![tactic(auto)]

ghost use Rattle.std.specs.Prelude.{◌≡◌, ◌+◌, ◌*◌, ◌<◌, ◌≤◌, length};
ghost use Rattle.mark_rows.specs.Rows.{row_mark, word_count, row_count, mark_below, either, RowIs, WordEnds, Word, RowsOf};

// Whether row x has mark y.
pub fn has_mark(rows: &[u64; 1024], x: usize, y: usize) -> bool
    requires { (x < 256) × (y < 256) }
    ensures { result ≡ row_mark rows.now x y }
{
    (rows[x * 4 + y / 64] >> (y % 64)) & 1 == 1
}

// Where the marks of the word that begins with mark `first` end: at n, or after 64.
fn word_end(first: usize, n: usize) -> usize
    requires { first ≤ 256 }
    ensures { WordEnds first n result }
{
    if n <= first {
        return first;
    }
    if n <= first + 64 {
        return n;
    }
    first + 64
}

// The word of the matrix's marks in row x from mark `first` on: those below n, of 64.
fn word_of(m: &[u8; 65536], n: usize, x: usize, first: usize) -> u64
    requires { (n ≤ 256) × (x < 256) × (first ≤ 192) }
    ensures { Word (mark_below m.now n x) first result }
{
    let end = word_end(first, n);
    let mut word = 0u64;
    for b in 0..end - first {
        word |= ((m[x * 256 + (first + b)] == 1) as u64) << b;
    }
    word
}

// Row x takes the matrix's marks, those below n.
fn fill_row(m: &[u8; 65536], n: usize, x: usize, rows: &mut [u64; 1024])
    requires { (n ≤ 256) × (x < 256) × (length rows.old ≡ 1024) }
    ensures { RowIs x (mark_below m.now n x) rows.old rows.new }
{
    for w in 0..4 {
        rows[x * 4 + w] = word_of(m, n, x, w * 64);
    }
}

// The rows of the matrix, among the first n.
pub fn fill_rows(m: &[u8; 65536], n: usize, rows: &mut [u64; 1024])
    requires { (n ≤ 256) × (length rows.old ≡ 1024) }
    ensures { RowsOf m.now n n rows.new }
{
    for x in 0..n {
        fill_row(m, n, x, rows);
    }
}

// Row x takes the marks of row k, and keeps its own.
pub fn hand_row(rows: &mut [u64; 1024], k: usize, x: usize)
    requires { (k < 256) × (x < 256) × (length rows.old ≡ 1024) }
    ensures { RowIs x (either rows.old x k) rows.old rows.new }
{
    for i in 0..4 {
        rows[x * 4 + i] |= rows[k * 4 + i];
    }
}

// How many marks a word has.
fn count_word(word: u64) -> usize
    ensures { (result ≡ word_count word) × (result ≤ 64) }
{
    u64::count_ones(word) as usize
}

// How many marks row x has.
pub fn count_marks(rows: &[u64; 1024], x: usize) -> usize
    requires { x < 256 }
    ensures { (result ≡ row_count rows.now x) × (result ≤ 256) }
{
    let mut c = 0;
    for w in 0..4 {
        c += count_word(rows[x * 4 + w]);
    }
    c
}
