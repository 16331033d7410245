// A table cleared or read from a text through the release desk: it is written anew, and every record waits.
#![tactic(auto)]

ghost use Rattle.std.specs.Prelude.{◌≡◌};
ghost use Rattle.desk.specs.Desk.{desk_of, outcome, desk_clear, desk_read};

use desk_states::renew;
use layout::{Answer, Refusal};

pub fn desk_clear(t: &mut [u32], s: &mut [u32]) -> Answer
    ensures { outcome result (desk_of t.new s.new) ≡ desk_clear (desk_of t.old s.old) }
{
    if s.len() != layout::VERTEX_LIMIT {
        return Err(Refusal::NotWellFormed);
    }
    let cleared = hypergraph::clear(t);
    renew(s, cleared);
    cleared
}

pub fn desk_read_frames(t: &mut [u32], s: &mut [u32], text: &[u8]) -> Answer
    ensures { outcome result (desk_of t.new s.new) ≡ desk_read text.now (desk_of t.old s.old) }
{
    if s.len() != layout::VERTEX_LIMIT {
        return Err(Refusal::NotWellFormed);
    }
    let read = read_frames::read_frames(t, text);
    renew(s, read);
    read
}
