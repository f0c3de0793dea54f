// New circuits that passed the tests, added to an old plan that is fit: places on the old fibres, new fibres for those that fit nowhere, and the three numbers.
// Each step that needs a table is a function of its own, so that no other table is on the stack while the new fibres are planned.
// The lent areas go one by one: a struct that holds them by reference makes clauses say `.entry.` of each field.
ghost use Rattle.std.specs.Prelude.{◌≡◌, List, ◌++◌, ℕ, ◌+◌, ◌*◌, ◌/◌, ◌≤◌, length};
ghost use Rattle.records.specs.Records.{circuits_of};
ghost use Rattle.method.specs.Fibres.{floor};
ghost use Rattle.method.specs.Line.{Distinct};
ghost use Rattle.register.specs.Areas.{areas};
ghost use Rattle.register.specs.Plans.{plan_in};
ghost use Rattle.rows.specs.Accepted.{Accepted};
ghost use Rattle.additions.specs.Adding.{places_found};
ghost use Rattle.placing.specs.Turns.{AllWritten};
ghost use Rattle.adder.specs.inner.Growing.{GrowAsked, Grew};

use records::Line;
use register::{Counts, Job};

// The new circuits, by rising number, get the lowest places on the old fibres, each in its own record behind the old ones; 0 and 0 where there is none.
fn find_places(
    old: &[u8],
    new: &[u8],
    fibres: &[u8],
    many: usize,
    w: usize,
    assigns: &mut [u8],
    ends: &mut [u8],
)
    requires asked { (n : ℕ) × (work : List ℕ) × GrowAsked n w (length old.now / 8) (length new.now / 8) many old.now new.now (areas fibres.now assigns.old work) }
    requires room { 4 * (length old.now / 8 + length new.now / 8) ≤ length ends.old }
    ensures { AllWritten (circuits_of new.now) (length old.now / 8) (places_found w (circuits_of old.now) (plan_in many (length old.now / 8) fibres.now assigns.old) (circuits_of new.now)) assigns.old assigns.new }
{
    let k = old.len() / 8;
    let m = new.len() / 8;
    let mut table: [u8; 4096] = [0; 4096];
    let order = &mut table[..2 * m];
    order::sort(new, m, order);
    placing::place_new(old, k, new, m, order, fibres, many, w, assigns, ends);
}

// The floor of both files.
fn floor_of_both(old: &[u8], new: &[u8], n: usize, w: usize) -> usize
    requires { Accepted n w (length old.now / 8) old.now × Accepted n w (length new.now / 8) new.now × (length old.now / 8 + length new.now / 8 ≤ 2048) × Distinct (circuits_of old.now ++ circuits_of new.now) }
    ensures { result ≡ floor n w (circuits_of old.now ++ circuits_of new.now) }
{
    let mut joined: [u8; 16384] = [0; 16384];
    let e = two_files::join(old, new, &mut joined);
    checker::measures::floor_of(&joined[..e], n, w, old.len() / 8 + new.len() / 8)
}

// Adds the circuits of `new` to the plan of those of `old`, whose `many` fibres begin the fibre list.
pub fn grow(
    line: Line,
    old: &[u8],
    new: &[u8],
    many: usize,
    fibres: &mut [u8],
    assigns: &mut [u8],
    work: &mut [u8],
) -> Counts
    requires { GrowAsked line.links line.wavelengths (length old.now / 8) (length new.now / 8) many old.now new.now (areas fibres.old assigns.old work.old) }
    ensures { Grew line.links line.wavelengths (length old.now / 8) (length new.now / 8) many old.now new.now (areas fibres.old assigns.old work.old) (areas fibres.new assigns.new work.new) result }
{
    let k = old.len() / 8;
    let m = new.len() / 8;
    let span = checker::measures::length_of(fibres, many);
    let floor = floor_of_both(old, new, line.links, line.wavelengths);
    let ends = &mut work[4 * line.links..4 * line.links + 4 * (k + m)];
    find_places(old, new, fibres, many, line.wavelengths, assigns, ends);
    let job = Job::on(line, m, many);
    let added = parts::plan_left(job, new, k, fibres, assigns, work);
    Counts {
        fibres: many + added.fibres,
        total: span + added.total,
        floor,
    }
}
