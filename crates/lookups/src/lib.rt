// What the lookups share: how a hyperedge relates a vertex to another, and what a listing has of a hyperedge.
#![tactic(auto)]

ghost use Rattle.std.specs.Prelude.{◌≡◌, ◌+◌, ◌<◌, length};
ghost use Rattle.lists.specs.Lists.{memb};
ghost use Rattle.layout.specs.Inner.{step_at};
ghost use Rattle.lookups.specs.State.{ends_of};

// A direction of steps, seen from a vertex v. From: the steps that lead from v, to a vertex right after it in a list. To: the
// steps that lead to v, from a vertex right before it.
#[derive(Clone, Copy)]
pub enum Direction {
    From,
    To,
}

// How a hyperedge relates a vertex to another: it steps between the two in the direction, or it lists both.
#[derive(Clone, Copy)]
pub enum Relation {
    Along(Direction),
    Around,
}

// What is listed of the hyperedges: those that step from one vertex to another, those of a weight, or the lists that hold a vertex.
#[derive(Clone, Copy)]
pub enum Listing {
    Connecting(u32, u32),
    Weighing(u32),
    Holding(u32),
}

// The ends of a step that is seen in a direction: the end from which it is seen, and the other.
#[derive(Clone, Copy)]
pub struct Ends {
    pub near: u32,
    pub far: u32,
}

// The ends of the step at place i.
pub fn ends_at(ms: &[u32], i: usize, dir: Direction) -> Ends
    requires { i + 1 < length ms.now }
    ensures { result ≡ ends_of dir (step_at ms.now i) }
{
    let from = ms[i];
    let to = ms[i + 1];
    match dir {
        Direction::From => Ends {
            near: from,
            far: to,
        },
        Direction::To => Ends {
            near: to,
            far: from,
        },
    }
}

// Whether v stands in a list. No word is skipped, so that the compiler can take several at a time.
pub fn holds(ms: &[u32], v: u32) -> bool
    ensures { result ≡ memb v ms.now }
{
    let mut found = false;
    for i in 0..ms.len() {
        if ms[i] == v {
            found = true;
        }
    }
    found
}
