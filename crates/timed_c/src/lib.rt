// The test of the table as a C function, for `bench/`.
#![tactic(auto)]

ghost use Rattle.std.specs.Prelude.{◌≡◌};
ghost use Rattle.layout.specs.Layout.{limit};
ghost use Rattle.layout.specs.WellFormed.{well_formed};

#[unsafe(no_mangle)]
pub extern "C" fn timed_well_formed(t: &[u32]) -> bool
    ensures { result ≡ well_formed limit t.now }
{
    timed::timed_well_formed(t)
}
