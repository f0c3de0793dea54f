// The lines of lists of records, at the start of a lent buffer.
// Records stand in lent bytes, so loops go over their places. Two loops are plainer than one: it would take a trait with a line's text, its room and a grid, which no fibre's line has.
ghost use Rattle.std.specs.Prelude.{◌*◌, ◌≤◌, length};
ghost use Rattle.sheet_text.specs.Text.{fibre_lines, circuit_lines};
ghost use Rattle.text.specs.Wrote.{Wrote};

use crate::lines;
use records::{AssignmentRecord, FibreRecord};

// The lines of the first k fibre records. What is told: their length.
#[tactic(auto, using(crate::proofs::Writing::fibre_more, text::proofs::Writing::then_part), unfolding(crate::specs::Text::fibre_lines))]
pub fn write_fibres(k: usize, fibres: &[u8], out: &mut [u8]) -> usize
    requires { (8 * k ≤ length fibres.now) × (32 * k ≤ length out.old) }
    ensures { (Wrote (fibre_lines k fibres.now) result out.old out.new) × (result ≤ 32 * k) }
{
    let mut at = 0;
    for i in 0..k {
        let f = records::record_at::<FibreRecord>(fibres, i);
        at += lines::write_fibre(f, &mut out[at..]);
    }
    at
}

// The lines of the first m assignment records. What is told: their length.
#[tactic(auto, using(crate::proofs::Writing::circuit_more, text::proofs::Writing::then_part), unfolding(crate::specs::Text::circuit_lines))]
pub fn write_circuits(grid: usize, m: usize, assigns: &[u8], out: &mut [u8]) -> usize
    requires { (8 * m ≤ length assigns.now) × (40 * m ≤ length out.old) }
    ensures { (Wrote (circuit_lines grid m assigns.now) result out.old out.new) × (result ≤ 40 * m) }
{
    let mut at = 0;
    for i in 0..m {
        let a = records::record_at::<AssignmentRecord>(assigns, i);
        at += lines::write_circuit(grid, a, &mut out[at..]);
    }
    at
}
