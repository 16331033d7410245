// Commands carried out as the program does, one after the other on a table that begins empty, and printed with what each says.
#![tactic(auto)]

use clerk_files::part;
use command_sheets::Manner;
use std::io;

fn print_opening(rt: &impl Print, plain: bool) -> io::Result<()> {
    if plain {
        return print!(rt; "$ vaultsorrel --plain day.frames ");
    }
    print!(rt; "$ vaultsorrel day.frames ")
}

// One command, and what it says; with `--plain ` before it the line asks for numbers only.
fn replay_line(
    rt: &impl Print,
    t: &mut [u32],
    s: &mut [u32],
    line: &[u8],
    makes: bool,
) -> io::Result<()> {
    let (plain, command) = match line.strip_prefix(b"--plain ") {
        Some(command) => (true, command),
        None => (false, line),
    };
    print_opening(rt, plain)?;
    rt.write_all(command)?;
    println!(rt;)?;
    let manner = Manner {
        plain,
        single: true,
        makes,
    };
    let mut page = clerk_files::page();
    let ran = batches::run(t, s, manner, b"day.frames", command, &mut page);
    rt.write_all(part(&page, ran.length))
}

fn replay_lines(rt: &impl Print, t: &mut [u32], s: &mut [u32], commands: &[u8]) -> io::Result<()> {
    let mut makes = true;
    let mut at = 0;
    // counts no index: it goes from the beginning of one line to the next
    while at < commands.len() {
        let end = text_lines::line_end(commands, at);
        replay_line(rt, t, s, &commands[at..end], makes)?;
        at = text_lines::line_next(commands, at, end);
        makes = false;
    }
    Ok(())
}

fn replay_commands(rt: &impl Print, commands: &[u8]) -> io::Result<()> {
    let mut t = [0u32; layout::SIZE];
    let mut s = [0u32; layout::VERTEX_LIMIT];
    replay_lines(rt, &mut t, &mut s, commands)
}

// The commands of a file, a line each; the first is carried out for a file that is made.
pub fn replay(rt: &HostRuntime, path: &[u8]) -> io::Result<()> {
    let mut commands = [0u8; 65536];
    match clerk_files::read_file(rt, path, &mut commands) {
        Err(error) => {
            clerk_files::fail(rt, path, &error);
            Ok(())
        }
        Ok(n) => replay_commands(rt, part(&commands, n)),
    }
}
