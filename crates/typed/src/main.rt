// Prints the sheet of a text of circuits, as a person types it on standard input. It reads, calls and writes; what is printed is `typed` of crate `prints`.
#![tactic(auto)]

use std::io::{Input, Print};

// Reads the text, and prints its sheet or what is wrong.
fn read_and_print<R: Input + Print>(
    rt: &R,
    buffer: &mut [u8; 1048577],
    circuits: &mut [u8; 16384],
    out: &mut [u8; 147664],
) {
    let text = files::read_input(rt, buffer).ok();
    let k = prints::typed::print_typed_from_start(text, circuits, out);
    let _ = files::write_output(rt, &out[..k]);
}

// Lends the other buffers.
fn lend<R: Input + Print>(rt: &R, buffer: &mut [u8; 1048577]) {
    let mut circuits = [0u8; 16384];
    let mut out = [0u8; 147664];
    read_and_print(rt, buffer, &mut circuits, &mut out);
}

// Lends the buffer for the text.
fn main(rt: HostRuntime) {
    let mut buffer = entry_text::buffer();
    lend(&rt, &mut buffer);
}
