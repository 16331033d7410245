// What a clerk may hold the calls to: theorems over their results. The one function is in no program: its contract says what a lent slice meets.
#![tactic(auto)]

ghost use Rattle.std.specs.Prelude.{◌≡◌, true};
ghost use Rattle.lists.specs.Lists.{all};
ghost use Rattle.layout.specs.Layout.{limit};
ghost use Rattle.layout.specs.WellFormed.{well_formed};
ghost use Rattle.frames.specs.Faulty.{is_word};

// Whether a lent slice is a table; and each of its words has 32 bits, whatever the test says.
fn lent_table(t: &[u32]) -> bool
    ensures { (result ≡ well_formed limit t.now) × (all is_word t.now ≡ true) }
{
    well_formed::well_formed(t)
}
