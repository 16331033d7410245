// What a removal or a merge did to the transfers, in words: those that are gone, and those whose list changed.
#![tactic(auto)]

ghost use Rattle.std.specs.Prelude.{◌≡◌, cond, [], ◌<◌, eqb};
ghost use Rattle.layout.specs.Layout.{limit, hyperedge_count, hyperedge_at, read};
ghost use Rattle.layout.specs.Inner.{Formed};
ghost use Rattle.wording.specs.Pages.{page, write};
ghost use Rattle.effect_sheets.specs.Effects.{relisted, effect, effects, withdrawn_said, tubes_said, transfers_said, merged_said};

use layout::{HyperedgeIndex, VertexIndex};
use member_lists::same_members;
use wording::{put_byte, put_form, put_text};
use wording_lists::put_joined;

// The members that transfer x has now, where they are others than the old ones. The verb is a form with its number.
fn put_relisted(
    verb: &[u8],
    x: u32,
    old: &[u32],
    members: &[u32],
    out: &mut [u8],
    at: usize,
) -> usize
    ensures { page out.new result ≡ write (relisted verb.now x old.now members.now) (page out.old at) }
{
    if same_members(old, members) {
        return at;
    }
    let next = put_form(out, at, verb, &[x], b"");
    put_joined(out, next, members)
}

// What became of the transfer in record j of the table before.
fn put_effect(
    verb: &[u8],
    before: &[u32],
    after: &[u32],
    j: usize,
    out: &mut [u8],
    at: usize,
) -> usize
    requires formed { Formed limit before.now }
    requires formed_2 { Formed limit after.now }
    requires j_bound { j < hyperedge_count before.now }
    ensures { page out.new result ≡ write (effect verb.now (read limit after.now) (hyperedge_at limit before.now j)) (page out.old at) }
{
    let x = layout::hyperedge_number(before, j);
    let f = find::find_hyperedge(after, HyperedgeIndex(x));
    match f {
        None => put_form(out, at, b"; transfer A withdrawn (emptied)", &[x], b""),
        Some(k) => {
            let old = layout::members_formed(before, j);
            let members = layout::members_formed(after, k);
            put_relisted(verb, x, old, members, out, at)
        }
    }
}

// What became of each transfer of the table before, ascending.
pub fn put_effects(verb: &[u8], before: &[u32], after: &[u32], out: &mut [u8], at: usize) -> usize
    requires formed { Formed limit before.now }
    requires formed_2 { Formed limit after.now }
    ensures { page out.new result ≡ write (effects verb.now (read limit before.now) (read limit after.now)) (page out.old at) }
{
    let n = layout::hyperedge_count(before);
    let mut next = at;
    for j in 0..n {
        next = put_effect(verb, before, after, j, out, next);
    }
    next
}

// The word for one or for several.
fn put_noun(one: &[u8], several: &[u8], n: usize, out: &mut [u8], at: usize) -> usize
    ensures { page out.new result ≡ write (cond (eqb n 1) one.now several.now) (page out.old at) }
{
    if n == 1 {
        return put_text(out, at, one);
    }
    put_text(out, at, several)
}

// What was withdrawn, one or several.
fn put_withdrawn(one: &[u8], several: &[u8], list: &[u32], out: &mut [u8], at: usize) -> usize
    ensures { page out.new result ≡ write (withdrawn_said one.now several.now list.now) (page out.old at) }
{
    let a = put_noun(one, several, list.len(), out, at);
    let b = put_joined(out, a, list);
    put_text(out, b, b" withdrawn")
}

// The sheet of tubes withdrawn; plain has none.
pub fn say_tubes_withdrawn(
    plain: bool,
    list: &[u32],
    before: &[u32],
    after: &[u32],
    out: &mut [u8],
    at: usize,
) -> usize
    requires formed { Formed limit before.now }
    requires formed_2 { Formed limit after.now }
    ensures { page out.new result ≡ write (cond plain [] (tubes_said list.now (read limit before.now) (read limit after.now))) (page out.old at) }
{
    if plain {
        return at;
    }
    let a = put_withdrawn(b"tube ", b"tubes ", list, out, at);
    let b = put_effects(b"; transfer A keeps ", before, after, out, a);
    put_byte(out, b, 10)
}

// The sheet of transfers withdrawn; plain has none.
pub fn say_transfers_withdrawn(plain: bool, list: &[u32], out: &mut [u8], at: usize) -> usize
    ensures { page out.new result ≡ write (cond plain [] (transfers_said list.now)) (page out.old at) }
{
    if plain {
        return at;
    }
    let a = put_withdrawn(b"transfer ", b"transfers ", list, out, at);
    put_byte(out, a, 10)
}

// The sheet of tube w merged into tube v; plain has none.
pub fn say_merged(
    plain: bool,
    v: VertexIndex,
    w: VertexIndex,
    before: &[u32],
    after: &[u32],
    out: &mut [u8],
    at: usize,
) -> usize
    requires formed { Formed limit before.now }
    requires formed_2 { Formed limit after.now }
    ensures { page out.new result ≡ write (cond plain [] (merged_said v.0 w.0 (read limit before.now) (read limit after.now))) (page out.old at) }
{
    if plain {
        return at;
    }
    let a = put_form(out, at, b"tube A merged into tube B", &[w.0, v.0], b"");
    let b = put_effects(b"; transfer A lists ", before, after, out, a);
    put_byte(out, b, 10)
}
