// The circuits that wait, by rising number, in a lent list of 4 m cells: m first links, m last links, m places in the file, and m cells that are nobody's.
// A circuit that is taken out has first link 0, and so fits no run.
// Cells stand in lent bytes, so loops go over their places. What is told where none waits is the end, as in `seek`, since callers go on from there.
#![tactic(auto)]

ghost use Rattle.std.specs.Prelude.{◌≡◌, ◌*◌, ◌≤◌, length, replicate};
ghost use Rattle.basics.specs.Tools.{part};
ghost use Rattle.records.specs.Bytes.{cells_of};
ghost use Rattle.records.specs.Records.{circuits_in};
ghost use Rattle.scans.specs.Scans.{both_within};
ghost use Rattle.queue.specs.Queued.{Queued, InList, first_place, StaysQueued};
ghost use Rattle.queue.specs.inner.ClosedUp.{ClosedUp};

use scans::Bounds;

// The part of the list where circuits wait, from place `from` to before place `to`; at most `many` do.
#[derive(Clone, Copy, Debug, PartialEq, Eq)]
pub struct Queue {
    pub from: usize,
    pub to: usize,
    pub many: usize,
}

// All circuits of a file wait.
pub fn line_up(circuits: &[u8], m: usize, list: &mut [u8]) -> Queue
    requires { (length circuits.now ≡ 8 * m) × (m ≤ 2048) × (length list.old ≡ 8 * m) }
    ensures { (length list.new ≡ 8 * m) × Queued m (circuits_in m circuits.now) (replicate m 0) (cells_of list.new) result }
{
    order::list_by_number(circuits, m, list);
    Queue {
        from: 0,
        to: m,
        many: m,
    }
}

// The first place of the queue whose first link lies within a and whose last link lies within b, or `to`.
pub fn first_waiting(m: usize, list: &[u8], q: Queue, a: Bounds, b: Bounds) -> usize
    requires { InList m list.now q × (a.low ≤ a.high) × (b.low ≤ b.high) }
    ensures { result ≡ first_place q (both_within a b (part 0 m (cells_of list.now)) (part m m (cells_of list.now))) }
{
    scans::first_within_both(&list[..2 * m], &list[2 * m..4 * m], q.from, q.to, a, b)
}

// The circuits that wait close up, in their order. What is told: how many they are.
fn close_up(m: usize, list: &mut [u8], to: usize) -> usize
    requires { (m ≤ 2048) × (length list.old ≡ 8 * m) × (to ≤ m) }
    ensures { (length list.new ≡ 8 * m) × ClosedUp m to (cells_of list.old) (cells_of list.new) result }
{
    let mut r = 0;
    for p in 0..to {
        let a = records::cells::get(list, p);
        if a != 0 {
            let b = records::cells::get(list, m + p);
            let j = records::cells::get(list, 2 * m + p);
            records::cells::put(list, r, a);
            records::cells::put(list, m + r, b);
            records::cells::put(list, 2 * m + r, j);
            r += 1;
        }
    }
    r
}

// The queue, shortened: closed up once half of it is out, else begun at the first that waits. Those that wait stay in it; how short it gets is not promised.
pub fn shorten(m: usize, list: &mut [u8], q: Queue) -> Queue
    requires { InList m list.old q × (q.many ≤ m) }
    ensures { (length list.new ≡ 8 * m) × StaysQueued m (cells_of list.old) (cells_of list.new) q result }
{
    if 2 * q.many <= q.to {
        let to = close_up(m, list, q.to);
        return Queue { from: 0, to, ..q };
    }
    let links = Bounds {
        low: 1,
        high: u16::MAX,
    };
    let from = scans::first_within(&list[..2 * m], q.from, q.to, links);
    Queue { from, ..q }
}
