// What each command asks for, and how many numbers it takes.
#![tactic(auto)]

ghost use Rattle.std.specs.Prelude.{◌≡◌, [], ◌∷◌, ◌≤◌, ◌<◌};
ghost use Rattle.commands.specs.Commands.{command_count, form_at, takes};

use commands::{COMMANDS, Change, Command, Look, MOST, Query};
use layout::{HyperedgeIndex, VertexIndex};

// The least and the largest count of numbers of each command.
const COUNTS: [[usize; 2]; COMMANDS] = [
    [0, 0], // init
    [0, 0], // check
    [1, 1], // show tube
    [1, 1], // show transfer
    [0, 0], // show
    [1, 1], // tube
    [1, MOST], // transfer
    [1, MOST], // relist
    [1, MOST], // withdraw tube
    [1, MOST], // withdraw transfer
    [2, 2], // merge
    [0, 0], // sort
    [2, 2], // path
    [1, 1], // costs
    [1, 1], // upstream
    [1, 1], // downstream
    [1, 1], // next
    [1, 1], // before
    [0, 0], // components
    [0, 0], // strong
    [0, 0], // closure
    [0, 0], // cut
    [0, 0], // orphans
    [0, 0], // endpoints
    [1, 1], // find tube
    [1, 1], // find transfer
    [3, 3], // walk
    [1, 1], // review
    [1, MOST], // release
    [0, MOST], // order
    [0, 0], // states
    [0, 0], // help
    [0, 0], // version
];

// Commands 0 to 4: init, check and what is shown.
fn shows(k: usize, a: u32, b: u32, c: u32) -> Command
    requires { k ≤ 4 }
    ensures { result ≡ (form_at k).asks a b c }
{
    match k {
        0 => Command::Init,
        1 => Command::View(Look::Check),
        2 => Command::View(Look::ShowTube(VertexIndex(a))),
        3 => Command::View(Look::ShowTransfer(HyperedgeIndex(a))),
        _ => Command::View(Look::Show),
    }
}

// Commands 5 to 10: changes of the table.
fn edits(k: usize, a: u32, b: u32, c: u32) -> Command
    requires { (4 < k) × (k ≤ 10) }
    ensures { result ≡ (form_at k).asks a b c }
{
    let change = match k {
        5 => Change::Tube(a),
        6 => Change::Transfer(a),
        7 => Change::Relist(HyperedgeIndex(a)),
        8 => Change::WithdrawTubes,
        9 => Change::WithdrawTransfers,
        _ => Change::Merge(VertexIndex(a), VertexIndex(b)),
    };
    Command::Make(change)
}

// Commands 11 to 17: the sort, paths, and what lies around a tube.
fn ways(k: usize, a: u32, b: u32, c: u32) -> Command
    requires { (10 < k) × (k ≤ 17) }
    ensures { result ≡ (form_at k).asks a b c }
{
    let v = VertexIndex(a);
    match k {
        11 => Command::Ask(Query::Sort),
        12 => Command::View(Look::Path(v, VertexIndex(b))),
        13 => Command::Ask(Query::Costs(v)),
        14 => Command::Ask(Query::Upstream(v)),
        15 => Command::Ask(Query::Downstream(v)),
        16 => Command::Ask(Query::Next(v)),
        _ => Command::Ask(Query::Before(v)),
    }
}

// Commands 18 to 23: the parts of the table.
fn parts(k: usize, a: u32, b: u32, c: u32) -> Command
    requires { (17 < k) × (k ≤ 23) }
    ensures { result ≡ (form_at k).asks a b c }
{
    let query = match k {
        18 => Query::Components,
        19 => Query::Strong,
        20 => Query::Closure,
        21 => Query::Cut,
        22 => Query::Orphans,
        _ => Query::Endpoints,
    };
    Command::Ask(query)
}

// Commands 24 to 28: what is found by cost, a walk, a review and a release.
fn finds(k: usize, a: u32, b: u32, c: u32) -> Command
    requires { (23 < k) × (k ≤ 28) }
    ensures { result ≡ (form_at k).asks a b c }
{
    let v = VertexIndex(a);
    match k {
        24 => Command::Ask(Query::FindTube(a)),
        25 => Command::Ask(Query::FindTransfer(a)),
        26 => Command::Ask(Query::Walk {
            start: v,
            steps: b,
            seed: c,
        }),
        27 => Command::Make(Change::Review(v)),
        _ => Command::Make(Change::Release),
    }
}

// Commands 29 to 32: an order, the states, help and the version.
fn others(k: usize, a: u32, b: u32, c: u32) -> Command
    requires { (28 < k) × (k ≤ 32) }
    ensures { result ≡ (form_at k).asks a b c }
{
    match k {
        29 => Command::View(Look::Order),
        30 => Command::View(Look::States),
        31 => Command::Help,
        _ => Command::Version,
    }
}

// What command k asks for, by its first three numbers.
pub fn command_of(k: usize, a: u32, b: u32, c: u32) -> Command
    requires { k < command_count }
    ensures { result ≡ (form_at k).asks a b c }
{
    if k <= 4 {
        return shows(k, a, b, c);
    }
    if k <= 10 {
        return edits(k, a, b, c);
    }
    if k <= 17 {
        return ways(k, a, b, c);
    }
    if k <= 23 {
        return parts(k, a, b, c);
    }
    if k <= 28 {
        return finds(k, a, b, c);
    }
    others(k, a, b, c)
}

// The least and the largest count of numbers of command k.
fn counts_of(k: usize) -> [usize; 2]
    requires { k < command_count }
    ensures { result ≡ (form_at k).least ∷ (form_at k).most ∷ [] }
{
    COUNTS[k]
}

// Whether command k takes so many numbers.
pub fn takes(k: usize, n: usize) -> bool
    requires { k < command_count }
    ensures { result ≡ takes k n }
{
    let counts = counts_of(k);
    if n < counts[0] {
        return false;
    }
    if counts[1] < n {
        return false;
    }
    true
}
