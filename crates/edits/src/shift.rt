// Words moved down, words cleared, and a vertex record taken out.
ghost use Rattle.std.specs.Prelude.{◌≡◌, ◌+◌, ◌-◌, ◌<◌, ◌≤◌, length, drop, replicate};
ghost use Rattle.std.proofs.Math.Seq.{paste};
ghost use Rattle.lists.specs.Inner.{shifted};
ghost use Rattle.layout.specs.Layout.{limit, vertex_limit, size};
ghost use Rattle.edits.specs.Removing.{vertex_taken_out};

// Stores 0 in the k words from a on.
pub fn clear_words(s: &mut [u32], a: usize, k: usize)
    requires { a + k ≤ length s.old }
    ensures { s.new ≡ paste s.old a (replicate k 0) k }
{
    s[a..a + k].fill(0);
}

// Moves what is behind a + k down to a.
fn move_down(s: &mut [u32], a: usize, k: usize)
    requires { a + k ≤ length s.old }
    ensures { s.new ≡ paste s.old a (drop (a + k) s.old) (length s.old - (a + k)) }
{
    s.copy_within(a + k.., a);
}

// Takes out the k words from a on.
pub fn shift_down(s: &mut [u32], a: usize, k: usize)
    requires { a + k ≤ length s.old }
    ensures { s.new ≡ shifted s.old a k }
{
    move_down(s, a, k);
    let e = s.len() - k;
    clear_words(s, e, k);
}

// Takes out record i of the n vertex records.
pub fn drop_vertex(t: &mut [u32], i: usize, n: usize)
    requires { (length t.old ≡ size limit) × ((i < n) × (n ≤ vertex_limit)) }
    ensures { t.new ≡ vertex_taken_out i n t.old }
{
    let a = i * layout::VERTEX_SIZE;
    shift_down(
        &mut t[layout::VERTICES_AT..layout::HYPEREDGES_AT],
        a,
        layout::VERTEX_SIZE,
    );
    t[2] = (n - 1) as u32;
}
