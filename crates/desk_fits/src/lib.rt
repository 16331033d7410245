// Whether a table and states are a desk: the test that stands before all else at the desk.
#![tactic(auto)]

ghost use Rattle.std.specs.Prelude.{◌≡◌};
ghost use Rattle.desk.specs.Desk.{desk_of, desk_fits};

use desk_states::states_fit;

// Whether the table is well formed and the states fit it.
pub fn desk_fits(t: &[u32], s: &[u32]) -> bool
    ensures { result ≡ desk_fits (desk_of t.now s.now) }
{
    if !well_formed::well_formed(t) {
        return false;
    }
    states_fit(s, layout::vertex_count(t))
}
