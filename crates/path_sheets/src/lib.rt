// The sheet of a path, written on a page.
#![tactic(auto)]

ghost use Rattle.std.specs.Prelude.{◌≡◌, [], ◌∷◌, ◌≤◌, length, drop};
ghost use Rattle.layout.specs.Layout.{limit, read};
ghost use Rattle.layout.specs.Inner.{Formed};
ghost use Rattle.layout.specs.Answers.{result_of};
ghost use Rattle.paths.specs.Paths.{best_path, path_words};
ghost use Rattle.reads.specs.Reads.{hyperedge_weight};
ghost use Rattle.wording.specs.Pages.{page, write};
ghost use Rattle.wording.specs.Forms.{filled};
ghost use Rattle.path_sheets.specs.Path.{entry_lines, walk_sheet, path_sheet, path_result};

use dijkstra_connections::get_dijkstra_connections_with_cost;
use layout::{Answer, HyperedgeIndex, VertexIndex};
use wording::put_form;

// The weight of the hyperedge of a number.
fn weight_of(t: &[u32], e: u32) -> u32
    requires { Formed limit t.now }
    ensures { result ≡ hyperedge_weight e (read limit t.now) }
{
    let f = find::find_hyperedge(t, HyperedgeIndex(e));
    match f {
        None => layout::hyperedge_weight(t, 0),
        Some(j) => layout::hyperedge_weight(t, j),
    }
}

// An entry: a vertex, the hyperedge of the step to it, and the weight of that hyperedge.
fn put_entry(t: &[u32], v: u32, e: u32, form: &[u8], out: &mut [u8], at: usize) -> usize
    requires { Formed limit t.now }
    ensures { page out.new result ≡ write (filled form.now (v ∷ e ∷ hyperedge_weight e (read limit t.now) ∷ []) []) (page out.old at) }
{
    let ns = [v, e, weight_of(t, e)];
    put_form(out, at, form, &ns, b"")
}

// The entries from place `from` on, each a vertex and a hyperedge.
fn put_entries(
    t: &[u32],
    words: &[u32],
    from: usize,
    form: &[u8],
    out: &mut [u8],
    at: usize,
) -> usize
    requires formed { Formed limit t.now }
    requires from_in_bounds { from ≤ length words.now }
    ensures { page out.new result ≡ write (entry_lines form.now (read limit t.now) (drop from words.now)) (page out.old at) }
{
    let mut next = at;
    for pair in words[from..].chunks_exact(2) {
        next = put_entry(t, pair[0], pair[1], form, out, next);
    }
    next
}

// A path by its words and by three forms: no path, the cost with the first tube, and an entry.
fn put_walk(
    t: &[u32],
    from: u32,
    to: u32,
    words: &[u32],
    unreached: &[u8],
    first: &[u8],
    entry: &[u8],
    out: &mut [u8],
    at: usize,
) -> usize
    requires formed { Formed limit t.now }
    requires words_value { words.now ≡ path_words (read limit t.now) from (best_path (read limit t.now) from to) }
    ensures { page out.new result ≡ write (walk_sheet unreached.now first.now entry.now (read limit t.now) from to (best_path (read limit t.now) from to)) (page out.old at) }
{
    if words.len() < 5 {
        let ns = [from, to];
        return put_form(out, at, unreached, &ns, b"");
    }
    let ns = [from, to, words[0], words[1]];
    let next = put_form(out, at, first, &ns, b"");
    put_entries(t, words, 5, entry, out, next)
}

// The same in words, or in numbers only.
fn put_worded(
    t: &[u32],
    from: u32,
    to: u32,
    words: &[u32],
    plain: bool,
    out: &mut [u8],
    at: usize,
) -> usize
    requires formed { Formed limit t.now }
    requires words_value { words.now ≡ path_words (read limit t.now) from (best_path (read limit t.now) from to) }
    ensures { page out.new result ≡ write (path_sheet plain from to (read limit t.now)) (page out.old at) }
{
    if plain {
        return put_walk(t, from, to, words, b"", b"M\nA\n", b"A B C\n", out, at);
    }
    put_walk(
        t,
        from,
        to,
        words,
        b"path A to B\n  none\n",
        b"path A to B, cost M\n  tube A\n",
        b"  tube A   by transfer B   cost C\n",
        out,
        at,
    )
}

// The best path between two tubes: its cost, and the tubes with the transfers by which they are reached.
pub fn put_path(
    t: &[u32],
    from: VertexIndex,
    to: VertexIndex,
    plain: bool,
    out: &mut [u8],
    at: usize,
) -> Answer
    requires { Formed limit t.now }
    ensures { result_of result out.new ≡ path_result plain from.0 to.0 (page out.old at) (read limit t.now) }
{
    // the cost, the count, and at most 256 entries of two words
    let mut words = [0u32; 515];
    let k = get_dijkstra_connections_with_cost(t, from, to, &mut words)?;
    Ok(put_worded(t, from.0, to.0, &words[0..k], plain, out, at))
}
