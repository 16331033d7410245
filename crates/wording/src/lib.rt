// Texts, numbers and forms written on a page: a lent slice of bytes, and the place where the next byte goes. What no longer fits is not
// written, and the place stays at the end of the slice.
#![tactic(auto)]

ghost use Rattle.std.specs.Prelude.{◌≡◌, ◌<◌};
ghost use Rattle.lists.specs.Lists.{word_at};
ghost use Rattle.wording.specs.Texts.{decimal};
ghost use Rattle.wording.specs.Pages.{page, write_byte, write};
ghost use Rattle.wording.specs.Forms.{wide_at, meant, filled};

// One byte.
pub fn put_byte(out: &mut [u8], at: usize, b: u8) -> usize
    ensures { page out.new result ≡ write_byte b (page out.old at) }
{
    if at < out.len() {
        out[at] = b;
        return at + 1;
    }
    at
}

// The bytes of a text.
pub fn put_text(out: &mut [u8], at: usize, text: &[u8]) -> usize
    ensures { page out.new result ≡ write text.now (page out.old at) }
{
    let mut next = at;
    for i in 0..text.len() {
        next = put_byte(out, next, text[i]);
    }
    next
}

// A number in decimal.
pub fn put_number(out: &mut [u8], at: usize, n: u64) -> usize
    ensures { page out.new result ≡ write (decimal n) (page out.old at) }
{
    if n < 10 {
        return put_byte(out, at, 48 + n as u8);
    }
    let next = put_number(out, at, n / 10);
    put_byte(out, next, 48 + (n % 10) as u8)
}

// The word at a place, or 0 where there is none.
pub fn word_at(ns: &[u32], i: usize) -> u32
    ensures { result ≡ word_at ns.now i }
{
    if i < ns.len() {
        return ns[i];
    }
    0
}

// The number in two words whose low word is at a place.
fn wide_at(ns: &[u32], i: usize) -> u64
    requires { i < 256 }
    ensures { result ≡ wide_at ns.now i }
{
    let low = word_at(ns, i);
    let high = word_at(ns, i + 1);
    low as u64 + 4294967296 * high as u64
}

// What a byte of a form stands for.
fn put_meant(out: &mut [u8], at: usize, ns: &[u32], name: &[u8], c: u8) -> usize
    ensures { page out.new result ≡ write (meant ns.now name.now c) (page out.old at) }
{
    if c < 65 {
        return put_byte(out, at, c);
    }
    if c < 75 {
        return put_number(out, at, word_at(ns, (c - 65) as usize) as u64);
    }
    if c < 85 {
        return put_number(out, at, wide_at(ns, (c - 75) as usize));
    }
    if c == 85 {
        return put_text(out, at, name);
    }
    put_byte(out, at, c)
}

// A form with its numbers and the name filled in.
pub fn put_form(out: &mut [u8], at: usize, form: &[u8], ns: &[u32], name: &[u8]) -> usize
    ensures { page out.new result ≡ write (filled form.now ns.now name.now) (page out.old at) }
{
    let mut next = at;
    for i in 0..form.len() {
        next = put_meant(out, next, ns, name, form[i]);
    }
    next
}
