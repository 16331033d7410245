// The lines of hyperedges.
#![tactic(auto)]

ghost use Rattle.std.specs.Prelude.{◌≡◌, ◌+◌, ◌*◌, ◌<◌, ◌≤◌, length};
ghost use Rattle.lists.specs.Lists.{tab, flat};
ghost use Rattle.layout.specs.Layout.{limit, hyperedge_count, hyperedge_at, members_at};
ghost use Rattle.layout.specs.Inner.{Formed};
ghost use Rattle.layout.specs.Content.{hyperedge_of};
ghost use Rattle.frames.specs.Frames.{byte_values, number_bytes, hyperedge_frame, byte_sum, hyperedge_line, member_length, hyperedge_length};
ghost use Rattle.frames.specs.Put.{number_digits, Put};
ghost use Rattle.frames.specs.Pairs.{Pairs};

use frame_lines::{number_sum, put_end, put_record};
use frames::{put_byte, put_number};

fn put_members(text: &mut [u8], at: usize, pairs: &[u8; 512], members: &[u32]) -> usize
    requires pairs { Pairs byte_values pairs.now }
    requires member_length_in_bounds { at + length members.now * member_length ≤ length text.old }
    ensures { Put at (length members.now * member_length) (flat number_digits members.now) text.old text.new result }
{
    let mut next = at;
    for i in 0..members.len() {
        next = put_number(text, next, pairs, members[i]);
    }
    next
}

fn members_sum(members: &[u32]) -> usize
    requires { length members.now ≤ limit }
    ensures { (result ≡ byte_sum (flat number_bytes members.now)) × (result ≤ limit * 1020) }
{
    let mut sum = 0;
    for i in 0..members.len() {
        sum += number_sum(members[i]);
    }
    sum
}

// The sum of the bytes of a hyperedge's frame before its last.
fn hyperedge_sum(number: u32, weight: u32, members: &[u32]) -> usize
    requires { length members.now ≤ limit }
    ensures { result ≡ byte_sum (hyperedge_frame (hyperedge_of number weight members.now)) }
{
    let numbers = number_sum(number) + number_sum(weight);
    2 + numbers + members.len() + members_sum(members)
}

fn put_hyperedge(
    text: &mut [u8],
    at: usize,
    pairs: &[u8; 512],
    number: u32,
    weight: u32,
    members: &[u32],
) -> usize
    requires pairs { Pairs byte_values pairs.now }
    requires members_len_bound { length members.now ≤ limit }
    requires members_in_bounds { at + hyperedge_length (length members.now) ≤ length text.old }
    ensures { Put at (hyperedge_length (length members.now)) (hyperedge_line (hyperedge_of number weight members.now)) text.old text.new result }
{
    let a = put_record(text, at, pairs, 2, number, weight);
    let b = put_byte(text, a, pairs, members.len() as u8);
    let c = put_members(text, b, pairs, members);
    put_end(text, c, pairs, hyperedge_sum(number, weight, members))
}

fn put_hyperedge_at(text: &mut [u8], at: usize, pairs: &[u8; 512], t: &[u32], j: usize) -> usize
    requires pairs { Pairs byte_values pairs.now }
    requires formed { Formed limit t.now }
    requires j_bound { j < hyperedge_count t.now }
    requires j_in_bounds { at + hyperedge_length (length (members_at limit t.now j)) ≤ length text.old }
    ensures { Put at (hyperedge_length (length (members_at limit t.now j))) (hyperedge_line (hyperedge_at limit t.now j)) text.old text.new result }
{
    let members = layout::members_formed(t, j);
    put_hyperedge(
        text,
        at,
        pairs,
        layout::hyperedge_number(t, j),
        layout::hyperedge_weight(t, j),
        members,
    )
}

pub fn put_hyperedges(text: &mut [u8], at: usize, pairs: &[u8; 512], t: &[u32], m: usize) -> usize
    requires pairs { Pairs byte_values pairs.now }
    requires formed { Formed limit t.now }
    requires m_value { m ≡ hyperedge_count t.now }
    requires m_in_bounds { at + length (flat hyperedge_line (tab (hyperedge_at limit t.now) m)) ≤ length text.old }
    ensures { Put at (length (flat hyperedge_line (tab (hyperedge_at limit t.now) m))) (flat hyperedge_line (tab (hyperedge_at limit t.now) m)) text.old text.new result }
{
    let mut next = at;
    for j in 0..m {
        next = put_hyperedge_at(text, next, pairs, t, j);
    }
    next
}
