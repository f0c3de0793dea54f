// Adds the new circuits of the folder where it runs to the plan there, keeps the grown plan, and prints its sheet. It reads, calls and writes; which files are kept is
// `grown` of crate `prints`, and what is printed is `add_printed`.
// The lent areas go one by one: a struct that holds them by reference makes clauses say `.entry.` of each field.
#![tactic(auto)]

ghost use Rattle.std.specs.Prelude.{◌≤◌, length, IfSome};
ghost use Rattle.prints.specs.Adding.{AddStarts};

use files::Start;
use std::io::Print;
use std::rt::Files;

// Writes the three files, and prints the sheet.
fn keep<R: Files + Print>(rt: &R, circuits: &[u8], fibres: &[u8], assigns: &[u8], text: &[u8]) {
    files::pair::print_replaced(
        rt,
        files::pair::replace_plan(rt, circuits, fibres, assigns),
        text,
        b"circuits.rec, fibres.rec and assign.rec cannot be written\n",
        b"circuits.rec, fibres.rec and assign.rec cannot be replaced\n",
    );
}

// From what reading the five files gave, keeps the grown plan and prints its sheet, or prints the refusal.
fn grow_and_keep<R: Files + Print>(
    rt: &R,
    line: Option<Start>,
    got_circuits: Option<usize>,
    circuits: &mut [u8],
    new: Option<Start>,
    got_fibres: Option<usize>,
    fibres: &mut [u8],
    got_assigns: Option<usize>,
    assigns: &mut [u8],
    out: &mut [u8],
)
    requires { AddStarts line got_circuits new got_fibres got_assigns circuits.old fibres.old assigns.old × (213072 ≤ length out.old) }
{
    let grown = prints::adding::grow_files_from_starts(
        line,
        got_circuits,
        circuits,
        new,
        got_fibres,
        fibres,
        got_assigns,
        assigns,
        out,
    );
    let text = &out[..grown.text];
    let Some(long) = grown.files else {
        let _ = files::write_output(rt, text);
        return;
    };
    keep(
        rt,
        &circuits[..long.circuits],
        &fibres[..long.fibres],
        &assigns[..long.assigns],
        text,
    );
}

// Reads a list, which stands at the start of its buffer: a record more than an addition takes. What is told: how many bytes.
fn read_list<R: Files>(rt: &R, name: &[u8], list: &mut [u8]) -> Option<usize>
    requires { 16392 ≤ length list.old }
    ensures { IfSome result (λ k. k ≤ 16392) }
{
    files::read_start(rt, name, &mut list[..16392]).ok()
}

// Reads all five files.
fn read_and_keep<R: Files + Print>(
    rt: &R,
    line: &mut [u8; 7],
    circuits: &mut [u8; 16392],
    new: &mut [u8; 16392],
    fibres: &mut [u8; 32776],
    assigns: &mut [u8; 32776],
    out: &mut [u8; 213072],
) {
    let line = files::read_file(rt, b"line.rec", line).ok();
    let got_circuits = files::read_start(rt, b"circuits.rec", circuits).ok();
    let new = files::read_file(rt, b"new.rec", new).ok();
    let got_fibres = read_list(rt, b"fibres.rec", fibres);
    let got_assigns = read_list(rt, b"assign.rec", assigns);
    grow_and_keep(
        rt,
        line,
        got_circuits,
        circuits,
        new,
        got_fibres,
        fibres,
        got_assigns,
        assigns,
        out,
    );
}

// Lends the buffers: behind what is read of a list there is room for 2,048 records.
fn main(rt: HostRuntime) {
    let mut line = [0u8; 7];
    let mut circuits = [0u8; 16392];
    let mut new = [0u8; 16392];
    let mut fibres = [0u8; 32776];
    let mut assigns = [0u8; 32776];
    let mut out = [0u8; 213072];
    read_and_keep(
        &rt,
        &mut line,
        &mut circuits,
        &mut new,
        &mut fibres,
        &mut assigns,
        &mut out,
    );
}
