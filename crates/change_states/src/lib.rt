// Changes of the states, each with its sheet: a review, and releases.
#![tactic(auto)]

ghost use Rattle.std.specs.Prelude.{◌≡◌, true, []};
ghost use Rattle.commands.specs.declared.Change.TheVariants.{Review, Release};
ghost use Rattle.desk.specs.Desk.{desk_of, desk_fits};
ghost use Rattle.wording.specs.Pages.{page};
ghost use Rattle.changes.specs.Changes.{told, change_told};

use desk_states::is_done;
use layout::{Answer, VertexIndex};

pub fn make_review(
    t: &[u32],
    s: &mut [u32],
    v: VertexIndex,
    plain: bool,
    out: &mut [u8],
    at: usize,
) -> Answer
    ensures { told result (desk_of t.now s.new) out.new ≡ change_told plain (Review v) [] (desk_of t.now s.old) (page out.old at) }
{
    let before = desk_looks::desk_state(t, s, v);
    let a = desk_review::desk_review(t, s, v);
    if !is_done(a) {
        return a;
    }
    Ok(state_sheets::say_review(plain, before, v, out, at))
}

pub fn make_releases(
    t: &[u32],
    s: &mut [u32],
    list: &[u32],
    plain: bool,
    out: &mut [u8],
    at: usize,
) -> Answer
    requires { desk_fits (desk_of t.now s.old) ≡ true }
    ensures { told result (desk_of t.now s.new) out.new ≡ change_told plain Release list.now (desk_of t.now s.old) (page out.old at) }
{
    let before = desk_numbers::copy_of(s);
    let a = desk_numbers::desk_release_numbers(t, s, list);
    if !is_done(a) {
        return a;
    }
    Ok(state_sheets::say_releases(plain, t, &before, list, out, at))
}
