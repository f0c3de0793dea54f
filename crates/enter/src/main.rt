// Turns a text of circuits on standard input into the records of a line, in the folder where it runs. It reads, calls and writes; what the files hold and what is
// said of the text is `MadeRead` of crate `prints`.
#![tactic(auto)]

use std::io::{Input, Print};
use std::rt::Files;

// Writes both files, and prints what is said of the text.
fn keep<R: Files + Print>(rt: &R, line: &[u8], circuits: &[u8], message: &[u8]) {
    files::pair::print_replaced(
        rt,
        files::pair::replace_records(rt, line, circuits),
        message,
        b"line.rec and circuits.rec cannot be written\n",
        b"line.rec and circuits.rec cannot be replaced\n",
    );
}

// Reads the text, makes its files and writes them, or prints what is wrong.
fn read_and_enter<R: Files + Input + Print>(
    rt: &R,
    buffer: &mut [u8; 1048577],
    line: &mut [u8; 6],
    circuits: &mut [u8; 16384],
    message: &mut [u8; 76],
) {
    let text = files::read_input(rt, buffer).ok();
    let made = prints::entering::make_files_from_start(text, line, circuits, message);
    let message = &message[..made.message];
    let Some(long) = made.files else {
        let _ = files::write_output(rt, message);
        return;
    };
    keep(rt, &line[..long.line], &circuits[..long.circuits], message);
}

// Lends the other buffers, with room for the 2,048 circuits that the planner takes.
fn lend<R: Files + Input + Print>(rt: &R, buffer: &mut [u8; 1048577]) {
    let mut line = [0u8; 6];
    let mut circuits = [0u8; 16384];
    let mut message = [0u8; 76];
    read_and_enter(rt, buffer, &mut line, &mut circuits, &mut message);
}

// Lends the buffer for the text.
fn main(rt: HostRuntime) {
    let mut buffer = entry_text::buffer();
    lend(&rt, &mut buffer);
}
