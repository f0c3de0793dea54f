// The check program: the records of a line and its plan in the folder where it runs, to one line. It reads, calls and writes; what is printed is `check_printed` of crate `prints`.
// The lent areas go one by one: a struct that holds them by reference makes clauses say `.entry.` of each field.
#![tactic(auto)]

ghost use Rattle.std.specs.Prelude.{◌≡◌, ◌≤◌, length};

use std::io::Print;
use std::rt::Files;

// Reads all four files, and prints what is found.
// Types for these lengths would be no plainer: that a buffer holds more than counts, as the theorems on unread bytes have it, is asked for as a fact.
fn read_and_print<R: Files + Print>(
    rt: &R,
    line: &mut [u8],
    circuits: &mut [u8],
    fibres: &mut [u8],
    assigns: &mut [u8],
    out: &mut [u8],
)
    requires { (length line.old ≡ 7) × (length circuits.old ≡ 16392) × (length fibres.old ≡ 32776) × (length assigns.old ≡ 16392) × (80 ≤ length out.old) }
{
    let line = files::read_file(rt, b"line.rec", line).ok();
    let circuits = files::read_file(rt, b"circuits.rec", circuits).ok();
    let fibres = files::read_file(rt, b"fibres.rec", fibres).ok();
    let assigns = files::read_file(rt, b"assign.rec", assigns).ok();
    let k = prints::checks::print_check_from_starts(line, circuits, fibres, assigns, out);
    let _ = files::write_output(rt, &out[..k]);
}

// Lends the buffers.
fn main(rt: HostRuntime) {
    let mut line = [0u8; 7];
    let mut circuits = [0u8; 16392];
    let mut fibres = [0u8; 32776];
    let mut assigns = [0u8; 16392];
    let mut out = [0u8; 80];
    read_and_print(
        &rt,
        &mut line,
        &mut circuits,
        &mut fibres,
        &mut assigns,
        &mut out,
    );
}
