// Both passes: who is not kept gets, by rising number, the lowest place on the old fibres, or 0 and 0, and a line of the report that begins.
// The areas that are written go one by one: a struct that holds them by reference makes clauses say `.entry.` of each field.
ghost use Rattle.std.specs.Prelude.{ℕ, ◌*◌, ◌≤◌, length};
ghost use Rattle.mender.specs.inner.Steps.{Refilled, Register};

use crate::sift;
use crate::sift::Damaged;
use placing::Sizes;
use records::chains::Chains;

// What is told: how many are not kept.
pub fn refill(
    circuits: &[u8],
    m: usize,
    fibres: &[u8],
    many: usize,
    w: usize,
    assigns: &mut [u8],
    report: &mut [u8],
    ends: &mut [u8],
) -> usize
    requires register { (n : ℕ) × Register n w m many circuits.now fibres.now assigns.old }
    requires room { (12 * m ≤ length report.old) × (4 * m ≤ length ends.old) }
    ensures { Refilled w m many circuits.now fibres.now assigns.old assigns.new report.old report.new result }
{
    let mut turns: [u8; 4096] = [0; 4096];
    let mut chains = Chains {
        heads: [0; 2048],
        next: [0; 2048],
    };
    let damaged = Damaged {
        circuits,
        m,
        fibres,
        many,
        wavelengths: w,
        assigns,
    };
    let k = sift::sift(damaged, report, &mut turns, ends, &mut chains);
    let sizes = Sizes {
        circuits: m,
        before: 0,
        fibres: many,
        wavelengths: w,
    };
    let lost = &turns[..2 * k];
    placing::place_all(circuits, sizes, lost, k, fibres, assigns, ends, &mut chains);
    k
}
