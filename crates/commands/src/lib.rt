// What a clerk can ask for, in the laboratory's words: a tube is a vertex, a transfer a hyperedge.
#![tactic(auto)]

ghost use Rattle.std.specs.Prelude.{◌≡◌, ◌<◌, length};
ghost use Rattle.lists.specs.Lists.{same_list};
ghost use Rattle.edits.specs.Results.{first_passing};
ghost use Rattle.commands.specs.Commands.{command_count, names, name_at, named};
ghost use Rattle.commands.specs.Inner.{opened, padded};

use layout::{HyperedgeIndex, VertexIndex};

// Questions whose answer is a listing.
#[derive(Clone, Copy)]
pub enum Query {
    Sort,
    Costs(VertexIndex),
    Upstream(VertexIndex),
    Downstream(VertexIndex),
    Next(VertexIndex),
    Before(VertexIndex),
    Components,
    Strong,
    Closure,
    Cut,
    Orphans,
    Endpoints,
    FindTube(u32),
    FindTransfer(u32),
    Walk {
        start: VertexIndex,
        steps: u32,
        seed: u32,
    },
}

// What shows records, states, or a path; an order is handed in as a list of numbers.
#[derive(Clone, Copy)]
pub enum Look {
    Check,
    Show,
    ShowTube(VertexIndex),
    ShowTransfer(HyperedgeIndex),
    Path(VertexIndex, VertexIndex),
    States,
    Order,
}

// What changes the table or the states. Members of a list, and the numbers of a tray or of a release, are handed in beside it.
#[derive(Clone, Copy)]
pub enum Change {
    Tube(u32),
    Transfer(u32),
    Relist(HyperedgeIndex),
    WithdrawTubes,
    WithdrawTransfers,
    Merge(VertexIndex, VertexIndex),
    Review(VertexIndex),
    Release,
}

// A line of commands: what it asks for, or why it is none. The number of `HelpOn` and of `WrongCount` is that of the command in the list of
// names; that of `NotNumber` is the place of the word among the arguments, from 1.
#[derive(Clone, Copy)]
pub enum Command {
    Init,
    Ask(Query),
    View(Look),
    Make(Change),
    Help,
    HelpOn(usize),
    Version,
    Unknown,
    NotNumber(usize),
    WrongCount(usize),
    TooMany,
}

// As many numbers as a line may have.
pub const MOST: usize = 1024;

// How many commands there are.
pub const COMMANDS: usize = 33;

// The names, each with blanks behind it, and their lengths. A command's number is its place here.
const NAMES: [[u8; 17]; COMMANDS] = [
    *b"init             ",
    *b"check            ",
    *b"show tube        ",
    *b"show transfer    ",
    *b"show             ",
    *b"tube             ",
    *b"transfer         ",
    *b"relist           ",
    *b"withdraw tube    ",
    *b"withdraw transfer",
    *b"merge            ",
    *b"sort             ",
    *b"path             ",
    *b"costs            ",
    *b"upstream         ",
    *b"downstream       ",
    *b"next             ",
    *b"before           ",
    *b"components       ",
    *b"strong           ",
    *b"closure          ",
    *b"cut              ",
    *b"orphans          ",
    *b"endpoints        ",
    *b"find tube        ",
    *b"find transfer    ",
    *b"walk             ",
    *b"review           ",
    *b"release          ",
    *b"order            ",
    *b"states           ",
    *b"help             ",
    *b"version          ",
];

const LENGTHS: [usize; COMMANDS] = [
    4, // init
    5, // check
    9, // show tube
    13, // show transfer
    4, // show
    4, // tube
    8, // transfer
    6, // relist
    13, // withdraw tube
    17, // withdraw transfer
    5, // merge
    4, // sort
    4, // path
    5, // costs
    8, // upstream
    10, // downstream
    4, // next
    6, // before
    10, // components
    6, // strong
    7, // closure
    3, // cut
    7, // orphans
    9, // endpoints
    9, // find tube
    13, // find transfer
    4, // walk
    6, // review
    7, // release
    5, // order
    6, // states
    4, // help
    7, // version
];

// What a line asks for, and how many numbers it has.
#[derive(Clone, Copy)]
pub struct Parsed {
    pub command: Command,
    pub count: usize,
}

fn same_bytes(a: &[u8], b: &[u8]) -> bool
    ensures { result ≡ same_list a.now b.now }
{
    a == b
}

// The length of the name where the line opens with it, else 0.
fn opens(line: &[u8], name: &[u8]) -> usize
    ensures { result ≡ opened line.now name.now }
{
    let n = name.len();
    if line.len() < n {
        return 0;
    }
    if !same_bytes(&line[..n], name) {
        return 0;
    }
    if line.len() == n {
        return n;
    }
    if line[n] != b' ' {
        return 0;
    }
    n
}

// The name of command k, with blanks behind it.
fn padded_name(k: usize) -> [u8; 17]
    requires { k < command_count }
    ensures { result ≡ padded k }
{
    NAMES[k]
}

pub fn name_length(k: usize) -> usize
    requires { k < command_count }
    ensures { result ≡ length (name_at k) }
{
    LENGTHS[k]
}

// The length of the name of command k where the line opens with it, else 0.
fn opening(k: usize, line: &[u8]) -> usize
    requires { k < command_count }
    ensures { result ≡ opened line.now (name_at k) }
{
    let name = padded_name(k);
    let n = name_length(k);
    opens(line, &name[..n])
}

// The number of the line's command: the first of the names that the line opens with.
pub fn find_name(line: &[u8]) -> Option<usize>
    ensures { result ≡ named line.now }
{
    for k in 0..COMMANDS {
        if opening(k, line) != 0 {
            return Some(k);
        }
    }
    None
}

// The number of the command whose name the bytes are.
pub fn find_exact(bytes: &[u8]) -> Option<usize>
    ensures { result ≡ first_passing (same_list bytes.now) names }
{
    if bytes.len() == 0 {
        return None;
    }
    for k in 0..COMMANDS {
        if opening(k, bytes) == bytes.len() {
            return Some(k);
        }
    }
    None
}
