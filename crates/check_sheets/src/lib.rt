// The sheet of a check, written on a page.
#![tactic(auto)]

ghost use Rattle.std.specs.Prelude.{◌≡◌, eqb};
ghost use Rattle.lists.specs.Tests.{bit};
ghost use Rattle.layout.specs.Layout.{limit, read};
ghost use Rattle.layout.specs.Inner.{Formed};
ghost use Rattle.layout.specs.Answers.{detail};
ghost use Rattle.structural.specs.Components.{connected};
ghost use Rattle.structural.specs.Sort.{acyclic};
ghost use Rattle.wording.specs.Pages.{page, write};
ghost use Rattle.wording.specs.Forms.{filled};
ghost use Rattle.check_sheets.specs.Check.{yes_no, checked, check_lines, check_sheet};

use layout::{Answer, Reply};
use wording::put_form;

// Whether an answer of yes or no is yes.
fn is_yes(a: Answer) -> bool
    ensures { result ≡ eqb (detail a) 1 }
{
    let r = Reply::from(a);
    r.detail == 1
}

fn is_connected(t: &[u32]) -> bool
    requires { Formed limit t.now }
    ensures { result ≡ connected (read limit t.now) }
{
    is_yes(component_listings::is_connected(t))
}

fn is_acyclic(t: &[u32]) -> bool
    requires { Formed limit t.now }
    ensures { result ≡ acyclic (read limit t.now) }
{
    is_yes(topological_sort::is_acyclic(t))
}

fn bit_of(b: bool) -> u32
    ensures { result ≡ bit b }
{
    if b {
        return 1;
    }
    0
}

// The numbers of a check, where it is known whether the table is connected and can be sorted.
fn check_numbers(t: &[u32], linked: bool, sortable: bool) -> [u32; 6]
    requires formed { Formed limit t.now }
    requires linked_value { (linked ≡ connected (read limit t.now)) × (sortable ≡ acyclic (read limit t.now)) }
    ensures { result ≡ checked (read limit t.now) }
{
    [
        layout::vertex_count(t) as u32,
        layout::hyperedge_count(t) as u32,
        layout::next_vertex(t),
        layout::next_hyperedge(t),
        bit_of(linked),
        bit_of(sortable),
    ]
}

// A form whose name is yes or no.
fn put_yes_no(out: &mut [u8], at: usize, form: &[u8], ns: &[u32], yes: bool) -> usize
    ensures { page out.new result ≡ write (filled form.now ns.now (yes_no yes)) (page out.old at) }
{
    if yes {
        return put_form(out, at, form, ns, b"yes");
    }
    put_form(out, at, form, ns, b"no")
}

// The lines of a check in words.
fn put_lines(ns: &[u32], linked: bool, sortable: bool, out: &mut [u8], at: usize) -> usize
    ensures { page out.new result ≡ write (check_lines ns.now linked sortable) (page out.old at) }
{
    let a = put_form(
        out,
        at,
        b"well formed: A tubes, B transfers, next tube C, next transfer D\n",
        ns,
        b"",
    );
    let b = put_yes_no(out, a, b"  connected U\n", ns, linked);
    put_yes_no(out, b, b"  can be sorted U\n", ns, sortable)
}

// The check: both counts, both next numbers, and whether the table is connected and can be sorted.
pub fn put_check(t: &[u32], plain: bool, out: &mut [u8], at: usize) -> usize
    requires { Formed limit t.now }
    ensures { page out.new result ≡ write (check_sheet plain (read limit t.now)) (page out.old at) }
{
    let linked = is_connected(t);
    let sortable = is_acyclic(t);
    let ns = check_numbers(t, linked, sortable);
    if plain {
        return put_form(out, at, b"A B C D E F\n", &ns, b"");
    }
    put_lines(&ns, linked, sortable, out, at)
}
