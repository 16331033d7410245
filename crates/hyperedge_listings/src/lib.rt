// Lists of hyperedges: by pair, by weight, by vertex.
#![tactic(auto)]

ghost use Rattle.std.specs.Prelude.{◌≡◌};
ghost use Rattle.layout.specs.Layout.{limit, read};
ghost use Rattle.layout.specs.Inner.{Formed};
ghost use Rattle.layout.specs.Answers.{result_of, listed, on_formed};
ghost use Rattle.lookups.specs.Lookups.{listing};
ghost use Rattle.lookups.specs.Results.{listing_result, connecting_result, weighing_result, full_hyperedges_result};

use hyperedge_blocks::{count_blocks, write_blocks};
use layout::{Answer, Refusal, VertexIndex};
use lookups::Listing;

fn list_blocks(t: &[u32], q: Listing, out: &mut [u32]) -> Answer
    requires { Formed limit t.now }
    ensures { result_of result out.new ≡ listed (listing q (read limit t.now)) out.old }
{
    let n = count_blocks(t, q);
    if out.len() < n {
        return Err(Refusal::NoRoom(n));
    }
    write_blocks(t, q, out);
    Ok(n)
}

// The listing, where the vertex is live.
fn list_of_vertex(t: &[u32], v: VertexIndex, q: Listing, out: &mut [u32]) -> Answer
    requires { Formed limit t.now }
    ensures { result_of result out.new ≡ listing_result v.0 q out.old (read limit t.now) }
{
    find::find_vertex(t, v).ok_or(Refusal::VertexNotLive(v))?;
    list_blocks(t, q, out)
}

// The hyperedges that step from one vertex to another, once for each place. The second vertex need not be live.
pub fn get_hyperedges_connecting(
    t: &[u32],
    from: VertexIndex,
    to: VertexIndex,
    out: &mut [u32],
) -> Answer
    ensures { result_of result out.new ≡ on_formed t.now out.old (connecting_result from.0 to.0 out.old) }
{
    if !well_formed::well_formed(t) {
        return Err(Refusal::NotWellFormed);
    }
    list_of_vertex(t, from, Listing::Connecting(from.0, to.0), out)
}

// The hyperedges of a weight.
pub fn find_hyperedges_by_weight(t: &[u32], weight: u32, out: &mut [u32]) -> Answer
    ensures { result_of result out.new ≡ on_formed t.now out.old (weighing_result weight out.old) }
{
    if !well_formed::well_formed(t) {
        return Err(Refusal::NotWellFormed);
    }
    list_blocks(t, Listing::Weighing(weight), out)
}

// The lists that hold the vertex, each as length and members.
pub fn get_full_vertex_hyperedges(t: &[u32], v: VertexIndex, out: &mut [u32]) -> Answer
    ensures { result_of result out.new ≡ on_formed t.now out.old (full_hyperedges_result v.0 out.old) }
{
    if !well_formed::well_formed(t) {
        return Err(Refusal::NotWellFormed);
    }
    list_of_vertex(t, v, Listing::Holding(v.0), out)
}
