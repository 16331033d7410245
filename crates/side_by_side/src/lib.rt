// Two vertices that stand side by side in a list.
#![tactic(auto)]

ghost use Rattle.std.specs.Prelude.{◌≡◌, ◌<◌};
ghost use Rattle.layout.specs.Layout.{limit, hyperedge_count, hyperedge_at, read_hyperedges};
ghost use Rattle.layout.specs.Inner.{Formed};
ghost use Rattle.lookups.specs.Lookups.{places};
ghost use Rattle.edits.specs.Results.{side_by_side, first_passing};
ghost use Rattle.side_by_side.specs.Places.{step_of, joins};

// Whether the step x to y leads from v to w or from w to v. All four are compared, so that there is no branch.
fn beside(x: u32, y: u32, v: u32, w: u32) -> bool
    ensures { result ≡ joins v w (step_of x y) }
{
    (x == v) & (y == w) | (x == w) & (y == v)
}

// The places of a list at which v and w stand side by side. None is skipped, for the same reason.
fn places_beside(ms: &[u32], v: u32, w: u32) -> usize
    ensures { result ≡ places (joins v w) ms.now }
{
    let mut n: usize = 0;
    for i in 0..ms.len().saturating_sub(1) {
        if beside(ms[i], ms[i + 1], v, w) {
            n += 1;
        }
    }
    n
}

// Whether they stand so in the list of record j. Few lists have w, so that is looked at first.
fn beside_in(t: &[u32], j: usize, v: u32, w: u32) -> bool
    requires formed { Formed limit t.now }
    requires j_bound { j < hyperedge_count t.now }
    ensures { result ≡ side_by_side v w (hyperedge_at limit t.now j) }
{
    let ms = layout::members_formed(t, j);
    if !lookups::holds(ms, w) {
        return false;
    }
    places_beside(ms, v, w) != 0
}

// The place of the first hyperedge in whose list v and w stand side by side.
pub fn find_side_by_side(t: &[u32], v: u32, w: u32) -> Option<usize>
    requires { Formed limit t.now }
    ensures { result ≡ first_passing (side_by_side v w) (read_hyperedges limit t.now) }
{
    let m = layout::hyperedge_count(t);
    for j in 0..m {
        if beside_in(t, j, v, w) {
            return Some(j);
        }
    }
    None
}
