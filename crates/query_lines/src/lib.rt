// The sheets of the questions whose answer is a listing, written from the words of the listing.
#![tactic(auto)]

ghost use Rattle.std.specs.Prelude.{◌≡◌};
ghost use Rattle.wording.specs.Pages.{page, write};
ghost use Rattle.query_lines.specs.Queries.{shape, entries, plainly, entries_or_none, query_sheet};

use commands::Query;

// What stands in the words of a listing: an entry is a tube, a transfer, two tubes, or a tube with its cost in two words; or a list of tubes
// with its count before it.
#[derive(Clone, Copy)]
pub enum Shape {
    Tubes,
    Transfers,
    Pairs,
    TubesAndCosts,
    Groups,
    SourcesAndSinks,
}

fn shape_of(q: Query) -> Shape
    ensures { result ≡ shape q }
{
    match q {
        Query::Sort => Shape::Tubes,
        Query::Costs(_) => Shape::TubesAndCosts,
        Query::Upstream(_) => Shape::Tubes,
        Query::Downstream(_) => Shape::Tubes,
        Query::Next(_) => Shape::Tubes,
        Query::Before(_) => Shape::Tubes,
        Query::Components => Shape::Groups,
        Query::Strong => Shape::Groups,
        Query::Closure => Shape::Pairs,
        Query::Cut => Shape::Tubes,
        Query::Orphans => Shape::Tubes,
        Query::Endpoints => Shape::SourcesAndSinks,
        Query::FindTube(_) => Shape::Tubes,
        Query::FindTransfer(_) => Shape::Transfers,
        Query::Walk {
            start: _,
            steps: _,
            seed: _,
        } => Shape::Tubes,
    }
}

// In words: a line for each entry.
fn put_entries(s: Shape, ws: &[u32], out: &mut [u8], at: usize) -> usize
    ensures { page out.new result ≡ write (entries s ws.now) (page out.old at) }
{
    match s {
        Shape::Tubes => wording_lists::put_rows(out, at, b"  tube A\n", 1, ws),
        Shape::Transfers => wording_lists::put_rows(out, at, b"  transfer A\n", 1, ws),
        Shape::Pairs => wording_lists::put_rows(out, at, b"  A to B\n", 2, ws),
        Shape::TubesAndCosts => wording_lists::put_rows(out, at, b"  tube A   cost L\n", 3, ws),
        Shape::Groups => wording_lists::put_lists(out, at, b"  tubes ", b"  tubes ", b"none", ws),
        Shape::SourcesAndSinks => {
            wording_lists::put_lists(out, at, b"  sources ", b"  sinks ", b"none", ws)
        }
    }
}

// In numbers alone.
fn put_plainly(s: Shape, ws: &[u32], out: &mut [u8], at: usize) -> usize
    ensures { page out.new result ≡ write (plainly s ws.now) (page out.old at) }
{
    match s {
        Shape::Tubes => wording_lists::put_rows(out, at, b"A\n", 1, ws),
        Shape::Transfers => wording_lists::put_rows(out, at, b"A\n", 1, ws),
        Shape::Pairs => wording_lists::put_rows(out, at, b"A B\n", 2, ws),
        Shape::TubesAndCosts => wording_lists::put_rows(out, at, b"A L\n", 3, ws),
        Shape::Groups => wording_lists::put_lists(out, at, b"", b"", b"", ws),
        Shape::SourcesAndSinks => wording_lists::put_lists(out, at, b"", b"", b"", ws),
    }
}

// The entries, or one line for none.
fn put_entries_or_none(s: Shape, ws: &[u32], out: &mut [u8], at: usize) -> usize
    ensures { page out.new result ≡ write (entries_or_none s ws.now) (page out.old at) }
{
    if ws.len() == 0 {
        return wording::put_text(out, at, b"  none\n");
    }
    put_entries(s, ws, out, at)
}

// The sheet of what the question's call wrote; plain: numbers only.
pub fn put_sheet(q: Query, plain: bool, ws: &[u32], out: &mut [u8], at: usize) -> usize
    ensures { page out.new result ≡ write (query_sheet plain q ws.now) (page out.old at) }
{
    let s = shape_of(q);
    if plain {
        return put_plainly(s, ws, out, at);
    }
    let next = query_titles::put_title(q, out, at);
    put_entries_or_none(s, ws, out, next)
}
