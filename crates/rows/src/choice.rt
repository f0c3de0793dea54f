// The waiting circuit of lowest number that fits.
// What is told where none fits is the end, as in `seek`, since the clause of a step is stated over it.
ghost use Rattle.std.specs.Prelude.{◌≡◌, ◌<◌, ◌≤◌};
ghost use Rattle.records.specs.Bytes.{cells_of};
ghost use Rattle.queue.specs.Queued.{InList, first_place};
ghost use Rattle.rows.specs.inner.Choice.{fits_at};

use crate::colours::Run;
use queue::Queue;
use scans::Bounds;

// The first place of the queue with a circuit that fits the run, or the queue's end: its ends lie within two bounds.
pub fn lowest_fit(m: usize, list: &[u8], waiting: Queue, run: Run) -> usize
    requires in_list { InList m list.now waiting }
    requires low_le_from { (run.low ≤ run.from) × (run.from < run.past) × (run.past ≤ run.high) × (run.high ≤ 513) }
    ensures { result ≡ first_place waiting (fits_at m run (cells_of list.now)) }
{
    queue::first_waiting(
        m,
        list,
        waiting,
        Bounds {
            low: run.low as u16,
            high: (run.past - 1) as u16,
        },
        Bounds {
            low: run.from as u16,
            high: (run.high - 1) as u16,
        },
    )
}
