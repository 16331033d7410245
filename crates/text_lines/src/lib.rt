// Where the lines of a text begin and end.
#![tactic(auto)]

ghost use Rattle.std.specs.Prelude.{◌≡◌, ◌≤◌, length};
ghost use Rattle.text_lines.specs.Lines.{Ends, Begins, Stands, ends_in_cr_lf};

// Where the line that begins at a place ends: at its line feed, or at the end of the text.
pub fn line_end(text: &[u8], from: usize) -> usize
    requires { from ≤ length text.now }
    ensures { Ends text.now from result }
{
    for i in from..text.len() {
        if text[i] == 10 {
            return i;
        }
    }
    text.len()
}

// Where the line behind it begins: behind the line feed, or at the end of the text.
pub fn line_next(text: &[u8], from: usize, end: usize) -> usize
    requires { Ends text.now from end }
    ensures { Begins text.now from result }
{
    if end < text.len() {
        return end + 1;
    }
    end
}

// Where line k begins, counted from 0; at the end of the text where it has not so many.
pub fn line_from(text: &[u8], k: usize) -> usize
    ensures { Stands text.now k result }
{
    let mut from = 0;
    for _i in 0..k {
        let end = line_end(text, from);
        from = line_next(text, from, end);
    }
    from
}

// Whether a line, counted from 1, ends in CR LF.
pub fn ends_in_cr_lf(text: &[u8], line: usize) -> bool
    ensures { result ≡ ends_in_cr_lf line text.now }
{
    if line == 0 {
        return false;
    }
    let from = line_from(text, line - 1);
    let end = line_end(text, from);
    if end == text.len() {
        return false;
    }
    if end == from {
        return false;
    }
    text[end - 1] == 13
}
