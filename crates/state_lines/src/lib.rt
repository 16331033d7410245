// What a line of a text of states says.
#![tactic(auto)]

ghost use Rattle.std.specs.Prelude.{◌≡◌, ◌-◌, ◌≤◌, length, take};
ghost use Rattle.lists.specs.Lists.{same_list};
ghost use Rattle.states_text.specs.StatesText.{state_line};
ghost use Rattle.states_text.specs.Reading.{line_state};
ghost use Rattle.state_lines.specs.Judged.{Numbered, Judged};

use desk::{RELEASED, REVIEWED, WAITING};
use put_states::put_state;

// The largest word.
const LAST: u64 = 4294967295;

// What a line says: a state of a number; waiting where the line is faulty.
#[derive(Clone, Copy)]
pub struct Said {
    pub state: u32,
    pub number: u64,
}

// The value of a digit; of another byte any value.
fn digit_value(c: u8) -> u64
    ensures { (result ≡ c - 48) × (result ≤ 255) }
{
    if c < 48 {
        return 0;
    }
    (c - 48) as u64
}

// The number of a line, or no word where that is none.
fn number_of(line: &[u8]) -> u64
    ensures { Numbered line.now result }
{
    let mut v: u64 = 0;
    for i in 9..line.len().saturating_sub(1) {
        if LAST < v {
            return v;
        }
        v = v * 10 + digit_value(line[i]);
    }
    v
}

// Whether the line is the one that is written for vertex v in state x.
fn is_line(line: &[u8], x: u32, v: u64) -> bool
    ensures { result ≡ same_list line.now (state_line x v) }
{
    let mut written = [0u8; 32];
    let n = put_state(&mut written, 0, x, v);
    line == &written[..n]
}

// The state that the line says, where v is its number; waiting where it says none.
fn state_of(line: &[u8], v: u64) -> u32
    requires { Numbered line.now v }
    ensures { result ≡ line_state line.now }
{
    if LAST < v {
        return WAITING;
    }
    if is_line(line, REVIEWED, v) {
        return REVIEWED;
    }
    if is_line(line, RELEASED, v) {
        return RELEASED;
    }
    WAITING
}

// What the line says, where its number must be from `low` on.
pub fn judge(line: &[u8], low: u64) -> Said
    ensures { Judged line.now low result.state result.number }
{
    let v = number_of(line);
    let x = state_of(line, v);
    if v < low {
        return Said {
            state: WAITING,
            number: v,
        };
    }
    Said {
        state: x,
        number: v,
    }
}
