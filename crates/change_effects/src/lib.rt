// Changes at the desk that other transfers feel, each with its sheet: tubes withdrawn, and tubes merged.
#![tactic(auto)]

ghost use Rattle.std.specs.Prelude.{◌≡◌, true, [], length};
ghost use Rattle.commands.specs.declared.Change.TheVariants.{WithdrawTubes, Merge};
ghost use Rattle.layout.specs.Layout.{limit, size};
ghost use Rattle.desk.specs.Desk.{desk_of, desk_fits};
ghost use Rattle.wording.specs.Pages.{page};
ghost use Rattle.changes.specs.Changes.{told, change_told};

use desk_states::is_done;
use edits::records::store;
use layout::{Answer, VertexIndex};
use trays::VERTEX_KIND;

// A copy of the table.
fn copy_of(t: &[u32]) -> [u32; layout::SIZE]
    requires { length t.now ≡ size limit }
    ensures { result ≡ t.now }
{
    let mut words = [0u32; layout::SIZE];
    store(&mut words, 0, t);
    words
}

pub fn withdraw_tubes(
    t: &mut [u32],
    s: &mut [u32],
    list: &[u32],
    plain: bool,
    out: &mut [u8],
    at: usize,
) -> Answer
    requires { desk_fits (desk_of t.old s.old) ≡ true }
    ensures { told result (desk_of t.new s.new) out.new ≡ change_told plain WithdrawTubes list.now (desk_of t.old s.old) (page out.old at) }
{
    let before = copy_of(t);
    let a = desk_numbers::desk_withdraw_numbers(t, s, VERTEX_KIND, list);
    if !is_done(a) {
        return a;
    }
    Ok(effect_sheets::say_tubes_withdrawn(plain, list, &before, t, out, at))
}

pub fn make_merge(
    t: &mut [u32],
    s: &mut [u32],
    v: VertexIndex,
    w: VertexIndex,
    plain: bool,
    out: &mut [u8],
    at: usize,
) -> Answer
    requires { desk_fits (desk_of t.old s.old) ≡ true }
    ensures { told result (desk_of t.new s.new) out.new ≡ change_told plain (Merge v w) [] (desk_of t.old s.old) (page out.old at) }
{
    let before = copy_of(t);
    let a = desk_removals::desk_merge_vertices(t, s, v, w);
    if !is_done(a) {
        return a;
    }
    Ok(effect_sheets::say_merged(plain, v, w, &before, t, out, at))
}
