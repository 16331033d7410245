// Whether a batch can change anything.
#![tactic(auto)]

ghost use Rattle.std.specs.Prelude.{◌≡◌};
ghost use Rattle.batch_changes.specs.Changing.{changing, has_change};

// Whether the line's command is a change.
fn is_changing(line: &[u8]) -> bool
    ensures { result ≡ changing line.now }
{
    let mut numbers = [0u32; 1024];
    let p = parse_line::parse(line, &mut numbers);
    let c = p.command;
    messages::is_change(c)
}

// Whether some line's command is a change. Where none is, a run leaves table and states as they are.
pub fn has_change(batch: &[u8]) -> bool
    ensures { result ≡ has_change batch.now }
{
    let mut from = 0;
    // counts no index: it goes from the beginning of one line to the next
    while from < batch.len() {
        let end = text_lines::line_end(batch, from);
        if is_changing(&batch[from..end]) {
            return true;
        }
        from = text_lines::line_next(batch, from, end);
    }
    false
}
