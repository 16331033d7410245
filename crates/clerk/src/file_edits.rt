// Commands that change the table or the states. New texts are written beside the old ones, synced and renamed over them: the table's first,
// the states' after it. The new file is made before the old one is read, so that two runs do not change one file at a time.
use crate::looks;
use crate::looks::{manner, told};
use batches::Ending;
use clerk_files::{Failed, PATH, TEXT, part, put_ending};
use std::fs::File;

// ---- the new texts

// The text is on the disk, and has its name.
fn put_in_place(
    rt: &HostRuntime,
    file: &mut File,
    new: &[u8],
    name: &[u8],
    text: &[u8],
) -> Result<(), Failed> {
    told(rt, new, clerk_files::write_synced(file, text))?;
    told(rt, name, clerk_files::rename(rt, new, name))?;
    clerk_files::sync_folder(rt, name);
    Ok(())
}

// The same where the states' text did not change, or the new one is written.
fn put_states(rt: &HostRuntime, changed: bool, new: &[u8], name: &[u8]) -> Result<(), Failed> {
    if !changed {
        return Ok(());
    }
    told(rt, name, clerk_files::rename(rt, new, name))?;
    clerk_files::sync_folder(rt, name);
    Ok(())
}

// The states' new text, beside the old one.
fn write_states(rt: &HostRuntime, changed: bool, new: &[u8], text: &[u8]) -> Result<(), Failed> {
    if !changed {
        return Ok(());
    }
    let mut file = clerk_files::open_new(rt, new)?;
    let written = told(rt, new, clerk_files::write_synced(&mut file, text));
    if written.is_err() {
        let _ = clerk_files::unlink(rt, new);
    }
    written
}

// The table's text changed, and perhaps the states'.
fn store_text(
    rt: &HostRuntime,
    file: &mut File,
    name: &[u8],
    new: &[u8],
    desk: &[u8],
    desk_new: &[u8],
    text: &[u8],
    states_too: bool,
) -> Result<(), Failed> {
    if put_in_place(rt, file, new, name, text).is_err() {
        let _ = clerk_files::unlink(rt, new);
        if states_too {
            let _ = clerk_files::unlink(rt, desk_new);
        }
        clerk_files::say_of(rt, name, b" was not changed\n");
        return Err(Failed);
    }
    if put_states(rt, states_too, desk_new, desk).is_err() {
        clerk_files::say_of(rt, name, b" was changed; its new states are left in:\n");
        clerk_files::say_of(rt, desk_new, b"\n");
        return Err(Failed);
    }
    Ok(())
}

// The states' text alone changed.
fn store_states(rt: &HostRuntime, new: &[u8], desk: &[u8], desk_new: &[u8]) -> Result<(), Failed> {
    let stored = put_states(rt, true, desk_new, desk);
    if stored.is_err() {
        let _ = clerk_files::unlink(rt, desk_new);
    }
    let _ = clerk_files::unlink(rt, new);
    stored
}

// Stores what is new, or nothing where nothing is.
fn store(
    rt: &HostRuntime,
    file: &mut File,
    name: &[u8],
    new: &[u8],
    desk: &[u8],
    desk_new: &[u8],
    text: &[u8],
    text_too: bool,
    states: &[u8],
    states_too: bool,
) -> Result<(), Failed> {
    if write_states(rt, states_too, desk_new, states).is_err() {
        let _ = clerk_files::unlink(rt, new);
        clerk_files::say_of(rt, name, b" was not changed\n");
        return Err(Failed);
    }
    if text_too {
        return store_text(rt, file, name, new, desk, desk_new, text, states_too);
    }
    if states_too {
        return store_states(rt, new, desk, desk_new);
    }
    let _ = clerk_files::unlink(rt, new);
    Ok(())
}

// ---- an edit of a file that is there

// Stores table and states, where the files are still those that were read.
fn store_desk(
    rt: &HostRuntime,
    file: &mut File,
    name: &[u8],
    new: &[u8],
    desk: &[u8],
    desk_new: &[u8],
    text: &[u8],
    states: &[u8],
    t: &[u32],
    s: &[u32],
) -> Result<(), Failed> {
    let mut text_now = [0u8; TEXT];
    let n = looks::written(t, &mut text_now);
    let mut states_now = [0u8; TEXT];
    let k = looks::states_written(t, s, &mut states_now);
    let text_now = part(&text_now, n);
    let states_now = part(&states_now, k);
    let text_too = text_now != text;
    let states_too = states_now != states;
    if !clerk_files::are_still(rt, name, text, desk, states) {
        let _ = clerk_files::unlink(rt, new);
        clerk_files::say_of(
            rt,
            name,
            b" was changed by another program meanwhile; nothing was changed\n",
        );
        return Err(Failed);
    }
    store(
        rt, file, name, new, desk, desk_new, text_now, text_too, states_now, states_too,
    )
}

// What was done is printed once it is stored.
fn print_stored(rt: &HostRuntime, name: &[u8], sheet: &[u8]) -> Result<Ending, Failed> {
    let printed = looks::print(rt, Ending::Done, sheet);
    if printed.is_err() {
        clerk_files::say_of(rt, name, b" was changed\n");
    }
    printed
}

fn edit_texts(
    rt: &HostRuntime,
    file: &mut File,
    name: &[u8],
    new: &[u8],
    desk: &[u8],
    desk_new: &[u8],
    text: &[u8],
    states: &[u8],
    batch: &[u8],
    single: bool,
    plain: bool,
) -> Result<Ending, Failed> {
    let mut t = [0u32; layout::SIZE];
    let mut s = [0u32; layout::VERTEX_LIMIT];
    if looks::load(rt, name, text, desk, states, &mut t, &mut s).is_err() {
        let _ = clerk_files::unlink(rt, new);
        return Ok(Ending::Refused);
    }
    let mut page = clerk_files::page();
    let how = manner(plain, single, false);
    let ran = batches::run(&mut t, &mut s, how, name, batch, &mut page);
    if ran.status != Ending::Done {
        let _ = clerk_files::unlink(rt, new);
        return looks::print(rt, ran.status, part(&page, ran.length));
    }
    store_desk(rt, file, name, new, desk, desk_new, text, states, &t, &s)?;
    print_stored(rt, name, part(&page, ran.length))
}

fn edit_text(
    rt: &HostRuntime,
    file: &mut File,
    name: &[u8],
    new: &[u8],
    desk: &[u8],
    desk_new: &[u8],
    text: &[u8],
    batch: &[u8],
    single: bool,
    plain: bool,
) -> Result<Ending, Failed> {
    let mut states = [0u8; TEXT];
    let read = clerk_files::read_optional(rt, desk, &mut states);
    let Ok(k) = told(rt, desk, read) else {
        let _ = clerk_files::unlink(rt, new);
        return Err(Failed);
    };
    let states = part(&states, k);
    edit_texts(
        rt, file, name, new, desk, desk_new, text, states, batch, single, plain,
    )
}

fn edit_open(
    rt: &HostRuntime,
    file: &mut File,
    name: &[u8],
    new: &[u8],
    desk: &[u8],
    desk_new: &[u8],
    batch: &[u8],
    single: bool,
    plain: bool,
) -> Result<Ending, Failed> {
    let mut text = [0u8; TEXT];
    let read = clerk_files::read_file(rt, name, &mut text);
    let Ok(n) = told(rt, name, read) else {
        let _ = clerk_files::unlink(rt, new);
        return Err(Failed);
    };
    let text = part(&text, n);
    edit_text(
        rt, file, name, new, desk, desk_new, text, batch, single, plain,
    )
}

// ---- a file that is made

// Numbers start anew: no state of an earlier file may count, so the states go first.
fn drop_states(rt: &HostRuntime, desk: &[u8]) -> Result<(), Failed> {
    if clerk_files::is_missing(rt, desk) {
        return Ok(());
    }
    told(rt, desk, clerk_files::unlink(rt, desk))?;
    clerk_files::say_of(rt, desk, b" was of an earlier file, and is removed\n");
    clerk_files::sync_folder(rt, desk);
    Ok(())
}

fn make_open(
    rt: &HostRuntime,
    file: &mut File,
    name: &[u8],
    new: &[u8],
    desk: &[u8],
    desk_new: &[u8],
    batch: &[u8],
    single: bool,
    plain: bool,
) -> Result<Ending, Failed> {
    let mut t = [0u32; layout::SIZE];
    let mut s = [0u32; layout::VERTEX_LIMIT];
    let mut page = clerk_files::page();
    let how = manner(plain, single, true);
    let ran = batches::run(&mut t, &mut s, how, name, batch, &mut page);
    if ran.status != Ending::Done {
        let _ = clerk_files::unlink(rt, new);
        return looks::print(rt, ran.status, part(&page, ran.length));
    }
    if drop_states(rt, desk).is_err() {
        let _ = clerk_files::unlink(rt, new);
        return Err(Failed);
    }
    store_desk(rt, file, name, new, desk, desk_new, b"", b"", &t, &s)?;
    print_stored(rt, name, part(&page, ran.length))
}

// ---- both

// The new file is made, and named where it is there already.
fn begin(
    rt: &HostRuntime,
    makes: bool,
    name: &[u8],
    new: &[u8],
    desk: &[u8],
    desk_new: &[u8],
    batch: &[u8],
    single: bool,
    plain: bool,
) -> Result<Ending, Failed> {
    let mut file = clerk_files::open_new(rt, new)?;
    carry_out(
        rt, makes, &mut file, name, new, desk, desk_new, batch, single, plain,
    )
}

fn carry_out(
    rt: &HostRuntime,
    makes: bool,
    file: &mut File,
    name: &[u8],
    new: &[u8],
    desk: &[u8],
    desk_new: &[u8],
    batch: &[u8],
    single: bool,
    plain: bool,
) -> Result<Ending, Failed> {
    if !makes {
        return edit_open(rt, file, name, new, desk, desk_new, batch, single, plain);
    }
    if !clerk_files::is_missing(rt, name) {
        let _ = clerk_files::unlink(rt, new);
        clerk_files::say_of(rt, name, b" is there already; nothing was changed\n");
        return Ok(Ending::Refused);
    }
    make_open(rt, file, name, new, desk, desk_new, batch, single, plain)
}

// Edits the file, or makes it.
pub fn edit(
    rt: &HostRuntime,
    makes: bool,
    name: &[u8],
    batch: &[u8],
    single: bool,
    plain: bool,
) -> Result<Ending, Failed> {
    if clerk_files::is_dash(name) {
        clerk_files::say(
            rt,
            b"vaultsorrel: - is standard input, which is not written back; name a file\n",
        );
        return Ok(Ending::Misused);
    }
    let mut new = [0u8; PATH];
    let a = put_ending(&mut new, name, b".new");
    let mut desk = [0u8; PATH];
    let b = put_ending(&mut desk, name, b".desk");
    let mut desk_new = [0u8; PATH];
    let c = put_ending(&mut desk_new, name, b".desk.new");
    let new = part(&new, a);
    let desk = part(&desk, b);
    let desk_new = part(&desk_new, c);
    begin(rt, makes, name, new, desk, desk_new, batch, single, plain)
}
