// Paths: the words of their answers, written at a place of the lent slice.
#![tactic(auto)]

ghost use Rattle.std.specs.Prelude.{◌≡◌, [], ◌∷◌, ◌+◌, ◌≤◌, length};
ghost use Rattle.lists.specs.Inner.{over_at};

// Two words at place `at`.
pub fn put_two(a: u32, b: u32, at: usize, out: &mut [u32])
    requires { at + 2 ≤ length out.old }
    ensures { out.new ≡ over_at at (a ∷ b ∷ []) out.old }
{
    out[at] = a;
    out[at + 1] = b;
}

// Three words at place `at`.
pub fn put_three(a: u32, b: u32, c: u32, at: usize, out: &mut [u32])
    requires { at + 3 ≤ length out.old }
    ensures { out.new ≡ over_at at (a ∷ b ∷ c ∷ []) out.old }
{
    out[at] = a;
    out[at + 1] = b;
    out[at + 2] = c;
}
