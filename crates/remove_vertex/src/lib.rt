// Removing a vertex.
#![tactic(auto)]

ghost use Rattle.std.specs.Prelude.{◌≡◌};
ghost use Rattle.layout.specs.Layout.{limit, read};
ghost use Rattle.layout.specs.Inner.{Formed};
ghost use Rattle.layout.specs.Answers.{on_formed, result_of};
ghost use Rattle.edits.specs.Results.{remove_vertex_result};

use edits::shift::drop_vertex;
use layout::{Answer, Refusal, VertexIndex};
use strip_vertex::strip_vertex;

// The removal, of a well-formed table.
fn remove_formed(t: &mut [u32], v: VertexIndex) -> Answer
    requires { Formed limit t.old }
    ensures { result_of result t.new ≡ remove_vertex_result v.0 t.old (read limit t.old) }
{
    let i = find::find_vertex(t, v).ok_or(Refusal::VertexNotLive(v))?;
    let n = layout::vertex_count(t);
    strip_vertex(t, v.0);
    drop_vertex(t, i, n);
    Ok(0)
}

pub fn remove_vertex(t: &mut [u32], v: VertexIndex) -> Answer
    ensures { result_of result t.new ≡ on_formed t.old t.old (remove_vertex_result v.0 t.old) }
{
    if !well_formed::well_formed(t) {
        return Err(Refusal::NotWellFormed);
    }
    remove_formed(t, v)
}
