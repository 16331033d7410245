// The table's words: their layout, what is read from them, the two kinds of number, and what an entry point answers.
#![tactic(auto)]

ghost use Rattle.std.specs.Prelude.{◌≡◌, ◌<◌, ◌≤◌, length};
ghost use Rattle.layout.specs.Layout.{limit, vertex_limit, hyperedge_limit, size, next_vertex_in, next_hyperedge_in, vertex_count, hyperedge_count, vertex_at, hyperedge_at, count_at, members_at};
ghost use Rattle.layout.specs.Inner.{Formed};
ghost use Rattle.layout.specs.Answers.{number, detail};

// The limits.
pub const VERTEX_LIMIT: usize = 256;

pub const HYPEREDGE_LIMIT: usize = 192;

pub const MEMBER_LIMIT: usize = 32;

// The words of a record, where the records of each kind begin, and the words of a table.
pub const VERTEX_SIZE: usize = 2;

pub const RECORD_SIZE: usize = 3 + MEMBER_LIMIT;

pub const VERTICES_AT: usize = 4;

pub const HYPEREDGES_AT: usize = VERTICES_AT + VERTEX_LIMIT * VERTEX_SIZE;

pub const SIZE: usize = HYPEREDGES_AT + HYPEREDGE_LIMIT * RECORD_SIZE;

// Vertex numbers and hyperedge numbers are separate kinds: neither is accepted where the other is due.
#[repr(C)]
#[derive(Clone, Copy)]
pub struct VertexIndex(pub u32);

#[repr(C)]
#[derive(Clone, Copy)]
pub struct HyperedgeIndex(pub u32);

// Why an entry point refuses: a case for each row of the table of answer numbers, in its order.
#[derive(Clone, Copy)]
pub enum Refusal {
    NotWellFormed,
    NoMembers(u32),
    VertexNotLive(VertexIndex),
    HyperedgeNotLive(HyperedgeIndex),
    SameMembers(HyperedgeIndex),
    TooManyMembers(usize),
    Full,
    NumbersSpent,
    ClosedWalk,
    TooFewHyperedges,
    NoRoom(usize),
    BadText(usize),
    SameVertex(VertexIndex),
    SideBySide(HyperedgeIndex),
    BadRecord(usize),
    NotReviewed(VertexIndex),
    UpstreamHeld(VertexIndex),
    BadOrder(usize),
    EqualNeighbours(VertexIndex),
}

// What an entry point answers: done, with a detail, or refused.
pub type Answer = Result<usize, Refusal>;

// The rules' number and detail of an answer.
#[repr(C)]
#[derive(Clone, Copy)]
pub struct Reply {
    pub number: u32,
    pub detail: u64,
}

impl From<Answer> for Reply {
    ghost from_gives = { λ a r. (r.number ≡ number a) × (r.detail ≡ detail a) };

    fn from(a: Answer) -> Self {
        match a {
            Ok(d) => reply_with(0, d as u64),
            Err(Refusal::NotWellFormed) => reply_with(1, 0),
            Err(Refusal::NoMembers(d)) => reply_with(2, d as u64),
            Err(Refusal::VertexNotLive(v)) => reply_with(3, v.0 as u64),
            Err(Refusal::HyperedgeNotLive(e)) => reply_with(4, e.0 as u64),
            Err(Refusal::SameMembers(e)) => reply_with(5, e.0 as u64),
            Err(Refusal::TooManyMembers(k)) => reply_with(6, k as u64),
            Err(Refusal::Full) => reply_with(7, 0),
            Err(Refusal::NumbersSpent) => reply_with(8, 0),
            Err(Refusal::ClosedWalk) => reply_with(9, 0),
            Err(Refusal::TooFewHyperedges) => reply_with(10, 0),
            Err(Refusal::NoRoom(k)) => reply_with(11, k as u64),
            Err(Refusal::BadText(line)) => reply_with(12, line as u64),
            Err(Refusal::SameVertex(v)) => reply_with(13, v.0 as u64),
            Err(Refusal::SideBySide(e)) => reply_with(14, e.0 as u64),
            Err(Refusal::BadRecord(i)) => reply_with(15, i as u64),
            Err(Refusal::NotReviewed(v)) => reply_with(17, v.0 as u64),
            Err(Refusal::UpstreamHeld(v)) => reply_with(18, v.0 as u64),
            Err(Refusal::BadOrder(i)) => reply_with(19, i as u64),
            Err(Refusal::EqualNeighbours(v)) => reply_with(20, v.0 as u64),
        }
    }
}

fn reply_with(number: u32, detail: u64) -> Reply
    ensures { (result.number ≡ number) × (result.detail ≡ detail) }
{
    Reply { number, detail }
}

pub fn wide(x: u32) -> usize
    ensures { result ≡ x }
{
    x as usize
}

pub fn next_vertex(t: &[u32]) -> u32
    requires { length t.now ≡ size limit }
    ensures { result ≡ next_vertex_in t.now }
{
    t[0]
}

pub fn next_hyperedge(t: &[u32]) -> u32
    requires { length t.now ≡ size limit }
    ensures { result ≡ next_hyperedge_in t.now }
{
    t[1]
}

pub fn vertex_count(t: &[u32]) -> usize
    requires { length t.now ≡ size limit }
    ensures { result ≡ vertex_count t.now }
{
    wide(t[2])
}

pub fn hyperedge_count(t: &[u32]) -> usize
    requires { length t.now ≡ size limit }
    ensures { result ≡ hyperedge_count t.now }
{
    wide(t[3])
}

pub fn vertex_number(t: &[u32], i: usize) -> u32
    requires { (length t.now ≡ size limit) × (i < vertex_limit) }
    ensures { result ≡ (vertex_at t.now i).number }
{
    t[VERTICES_AT + i * VERTEX_SIZE]
}

pub fn vertex_weight(t: &[u32], i: usize) -> u32
    requires { (length t.now ≡ size limit) × (i < vertex_limit) }
    ensures { result ≡ (vertex_at t.now i).weight }
{
    t[VERTICES_AT + i * VERTEX_SIZE + 1]
}

pub fn hyperedge_number(t: &[u32], j: usize) -> u32
    requires { (length t.now ≡ size limit) × (j < hyperedge_limit) }
    ensures { result ≡ (hyperedge_at limit t.now j).number }
{
    t[HYPEREDGES_AT + j * RECORD_SIZE]
}

pub fn hyperedge_weight(t: &[u32], j: usize) -> u32
    requires { (length t.now ≡ size limit) × (j < hyperedge_limit) }
    ensures { result ≡ (hyperedge_at limit t.now j).weight }
{
    t[HYPEREDGES_AT + j * RECORD_SIZE + 1]
}

pub fn member_count(t: &[u32], j: usize) -> usize
    requires { (length t.now ≡ size limit) × (j < hyperedge_limit) }
    ensures { result ≡ count_at limit t.now j }
{
    wide(t[HYPEREDGES_AT + j * RECORD_SIZE + 2])
}

// The members of a record: a part of the table, where they lie.
pub fn members(t: &[u32], j: usize) -> &[u32]
    requires { (length t.now ≡ size limit) × ((j < hyperedge_limit) × (count_at limit t.now j ≤ limit)) }
    ensures { result.now ≡ members_at limit t.now j }
{
    let n = member_count(t, j);
    let a = HYPEREDGES_AT + j * RECORD_SIZE + 3;
    let e = a + n;
    &t[a..e]
}

// The members of a live hyperedge.
pub fn members_formed(t: &[u32], j: usize) -> &[u32]
    requires formed { Formed limit t.now }
    requires j_bound { j < hyperedge_count t.now }
    ensures { result.now ≡ members_at limit t.now j }
{
    members(t, j)
}
