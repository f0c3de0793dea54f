// Lines, at the start of a lent buffer.
ghost use Rattle.std.specs.Prelude.{◌≤◌, length};
ghost use Rattle.sheet_text.specs.Text.{line, fibre_line, circuit_line};
ghost use Rattle.text.specs.Wrote.{Wrote};

use crate::fields;
use records::{AssignmentRecord, FibreRecord};

// A line: a letter, its fields and a newline. What is told: its length.
#[tactic(auto, using(crate::proofs::Lengths::line_length, text::proofs::Writing::then_part), unfolding(crate::specs::Text::line))]
pub fn write_line(letter: u8, xs: &[usize], out: &mut [u8]) -> usize
    requires { length (line letter xs.now) ≤ length out.old }
    ensures { Wrote (line letter xs.now) result out.old out.new }
{
    text::write_byte(letter, out);
    let n = 1 + fields::write_fields(xs, &mut out[1..]);
    text::write_byte(b'\n', &mut out[n..]);
    n + 1
}

// The line of a fibre: its number, first link, last link and layer. What is told: its length.
#[tactic(auto, using(crate::proofs::Lengths::fibre_room), unfolding(crate::specs::Text::fibre_line))]
pub fn write_fibre(f: FibreRecord, out: &mut [u8]) -> usize
    requires { 32 ≤ length out.old }
    ensures { (Wrote (fibre_line f) result out.old out.new) × (result ≤ 32) }
{
    let xs = [
        usize::from(f.number),
        usize::from(f.first),
        usize::from(f.last),
        usize::from(f.layer),
    ];
    write_line(b'F', &xs, out)
}

// The line of a circuit: its number, fibre, wavelength and frequency on the grid. What is told: its length.
pub fn write_circuit(grid: usize, a: AssignmentRecord, out: &mut [u8]) -> usize
    requires { 40 ≤ length out.old }
    ensures { (Wrote (circuit_line grid a) result out.old out.new) × (result ≤ 40) }
{
    let ghz = grid::frequency(grid, a.wavelength);
    let xs = [
        a.circuit as usize,
        usize::from(a.fibre),
        usize::from(a.wavelength),
        ghz as usize,
    ];
    write_line(b'C', &xs, out)
}
