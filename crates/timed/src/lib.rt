// The test of the table, for `bench/`. The crate timed_c exports it.
#![tactic(auto)]

ghost use Rattle.std.specs.Prelude.{◌≡◌};
ghost use Rattle.layout.specs.Layout.{limit};
ghost use Rattle.layout.specs.WellFormed.{well_formed};

pub fn timed_well_formed(t: &[u32]) -> bool
    ensures { result ≡ well_formed limit t.now }
{
    well_formed::well_formed(t)
}
