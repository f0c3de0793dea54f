// Plans the records of a line in the folder where it runs, keeps both lists of the plan there, and prints the sheet. It reads, calls and writes; which lists are kept
// is `kept` of crate `prints`, and what is printed is `printed`.
#![tactic(auto)]

use std::io::Print;
use std::rt::Files;

// Writes both lists, and prints the sheet.
fn keep<R: Files + Print>(rt: &R, fibres: &[u8], assigns: &[u8], text: &[u8]) {
    files::pair::print_replaced(
        rt,
        files::pair::replace_lists(rt, fibres, assigns),
        text,
        b"fibres.rec and assign.rec cannot be written\n",
        b"fibres.rec and assign.rec cannot be replaced\n",
    );
}

// Reads both files, keeps the lists of their plan and prints its sheet, or prints the refusal.
fn read_and_keep<R: Files + Print>(
    rt: &R,
    line: &mut [u8; 7],
    circuits: &mut [u8; 16392],
    fibres: &mut [u8; 16384],
    assigns: &mut [u8; 16384],
    out: &mut [u8; 147536],
) {
    let line = files::read_file(rt, b"line.rec", line).ok();
    let circuits = files::read_file(rt, b"circuits.rec", circuits).ok();
    let kept = prints::keeping::keep_lists_from_starts(line, circuits, fibres, assigns, out);
    let text = &out[..kept.text];
    let Some(long) = kept.lists else {
        let _ = files::write_output(rt, text);
        return;
    };
    keep(rt, &fibres[..long.fibres], &assigns[..long.assigns], text);
}

// Lends the buffers, with room for the 2,048 circuits that the planner takes.
fn main(rt: HostRuntime) {
    let mut line = [0u8; 7];
    let mut circuits = [0u8; 16392];
    let mut fibres = [0u8; 16384];
    let mut assigns = [0u8; 16384];
    let mut out = [0u8; 147536];
    read_and_keep(
        &rt,
        &mut line,
        &mut circuits,
        &mut fibres,
        &mut assigns,
        &mut out,
    );
}
