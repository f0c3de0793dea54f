// The sheet program: the records of a line in the folder where it runs, to text. It reads, calls and writes; what is printed is `printed` of crate `prints`.
#![tactic(auto)]

ghost use Rattle.std.specs.Prelude.{◌≡◌, ◌≤◌, length};

use std::io::Print;
use std::rt::Files;

// Reads both files, and prints the sheet.
// Types for these lengths would be no plainer: that a buffer holds more than counts, as the theorems on unread bytes have it, is asked for as a fact.
fn read_and_print<R: Files + Print>(rt: &R, line: &mut [u8], circuits: &mut [u8], out: &mut [u8])
    requires { (length line.old ≡ 7) × (length circuits.old ≡ 16392) × (147536 ≤ length out.old) }
{
    let line = files::read_file(rt, b"line.rec", line).ok();
    let circuits = files::read_file(rt, b"circuits.rec", circuits).ok();
    let k = prints::print_sheet_from_starts(line, circuits, out);
    let _ = files::write_output(rt, &out[..k]);
}

// Lends the buffers.
fn main(rt: HostRuntime) {
    let mut line = [0u8; 7];
    let mut circuits = [0u8; 16392];
    let mut out = [0u8; 147536];
    read_and_print(&rt, &mut line, &mut circuits, &mut out);
}
