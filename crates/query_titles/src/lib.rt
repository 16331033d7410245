// The title of a question's sheet.
#![tactic(auto)]

ghost use Rattle.std.specs.Prelude.{◌≡◌, [], ◌∷◌};
ghost use Rattle.wording.specs.Texts.{text};
ghost use Rattle.wording.specs.Pages.{page, write};
ghost use Rattle.wording.specs.Forms.{filled};
ghost use Rattle.query_titles.specs.Titles.{title};

use commands::Query;
use layout::VertexIndex;

// A form with one number.
fn put_with(form: &[u8], n: u32, out: &mut [u8], at: usize) -> usize
    ensures { page out.new result ≡ write (filled form.now (n ∷ []) []) (page out.old at) }
{
    let ns = [n];
    wording::put_form(out, at, form, &ns, b"")
}

// The first line of a walk.
fn put_walk(start: VertexIndex, steps: u32, seed: u32, out: &mut [u8], at: usize) -> usize
    ensures { page out.new result ≡ write (filled (text "walk from tube A, steps B, seed C\n") (start.0 ∷ steps ∷ seed ∷ []) []) (page out.old at) }
{
    let ns = [start.0, steps, seed];
    wording::put_form(out, at, b"walk from tube A, steps B, seed C\n", &ns, b"")
}

// The first line: the question, with its numbers.
pub fn put_title(q: Query, out: &mut [u8], at: usize) -> usize
    ensures { page out.new result ≡ write (title q) (page out.old at) }
{
    match q {
        Query::Sort => wording::put_text(out, at, b"sort\n"),
        Query::Costs(v) => put_with(b"costs from tube A\n", v.0, out, at),
        Query::Upstream(v) => put_with(b"upstream of tube A\n", v.0, out, at),
        Query::Downstream(v) => put_with(b"downstream of tube A\n", v.0, out, at),
        Query::Next(v) => put_with(b"next after tube A\n", v.0, out, at),
        Query::Before(v) => put_with(b"before tube A\n", v.0, out, at),
        Query::Components => wording::put_text(out, at, b"components\n"),
        Query::Strong => wording::put_text(out, at, b"strong components\n"),
        Query::Closure => wording::put_text(out, at, b"closure\n"),
        Query::Cut => wording::put_text(out, at, b"cut tubes\n"),
        Query::Orphans => wording::put_text(out, at, b"orphan tubes\n"),
        Query::Endpoints => wording::put_text(out, at, b"endpoints\n"),
        Query::FindTube(w) => put_with(b"tubes of weight A\n", w, out, at),
        Query::FindTransfer(w) => put_with(b"transfers of cost A\n", w, out, at),
        Query::Walk { start, steps, seed } => put_walk(start, steps, seed, out, at),
    }
}
