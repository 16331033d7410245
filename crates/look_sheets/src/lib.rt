// The sheets of looks, written on a page.
#![tactic(auto)]

ghost use Rattle.std.specs.Prelude.{◌≡◌, true, length};
ghost use Rattle.layout.specs.Layout.{limit, vertex_limit, read};
ghost use Rattle.layout.specs.Inner.{Formed};
ghost use Rattle.layout.specs.Answers.{result_of};
ghost use Rattle.desk.specs.Desk.{desk_of, desk_fits};
ghost use Rattle.wording.specs.Pages.{page};
ghost use Rattle.look_sheets.specs.Looks.{seen, look_result};

use check_sheets::put_check;
use commands::Look;
use desk_fits::desk_fits;
use desk_sheets::{judge_order, put_show, put_states, show_transfer, show_tube};
use layout::{Answer, Refusal};
use path_sheets::put_path;

fn look_formed(
    t: &[u32],
    s: &[u32],
    look: Look,
    list: &[u32],
    plain: bool,
    out: &mut [u8],
    at: usize,
) -> Answer
    requires formed { Formed limit t.now }
    requires s_len { length s.now ≡ vertex_limit }
    requires s_value { desk_fits (desk_of t.now s.now) ≡ true }
    ensures { result_of result out.new ≡ seen look list.now plain s.now (page out.old at) (read limit t.now) }
{
    match look {
        Look::Check => Ok(put_check(t, plain, out, at)),
        Look::Show => Ok(put_show(t, s, plain, out, at)),
        Look::ShowTube(v) => show_tube(t, s, v, plain, out, at),
        Look::ShowTransfer(e) => show_transfer(t, e, plain, out, at),
        Look::Path(a, b) => put_path(t, a, b, plain, out, at),
        Look::States => Ok(put_states(t, s, plain, out, at)),
        Look::Order => judge_order(t, s, list, plain, out, at),
    }
}

// Writes the sheet of a look on a page, from place `at` on. Done answers with the place of the next byte; a refusal writes nothing.
pub fn put_look(
    t: &[u32],
    s: &[u32],
    look: Look,
    list: &[u32],
    plain: bool,
    out: &mut [u8],
    at: usize,
) -> Answer
    ensures { result_of result out.new ≡ look_result look list.now plain (desk_of t.now s.now) (page out.old at) }
{
    if !desk_fits(t, s) {
        return Err(Refusal::NotWellFormed);
    }
    look_formed(t, s, look, list, plain, out, at)
}
