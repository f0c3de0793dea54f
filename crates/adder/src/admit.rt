// The tests of an addition, in their order: the first refusal that applies. Nothing is written.
// The lent areas go one by one: a struct that holds them by reference makes clauses say `.entry.` of each field.
ghost use Rattle.std.specs.Prelude.{◌≡◌, ◌+◌, ◌*◌, ◌/◌, ◌≤◌, length};
ghost use Rattle.refusals.specs.Table.{tested, verdict};
ghost use Rattle.register.specs.Areas.{areas};
ghost use Rattle.rows.specs.Accepted.{Accepted};
ghost use Rattle.adder.specs.Table.{row13, room_rows, old_rows, add_table};
ghost use Rattle.adder.specs.inner.Asking.{OldAsked};

use crate::Named;
use checker::rules;
use records::Line;
use refusals::{Reason, Refusal};

// The lent areas, by their lengths, for k old circuits and m new ones on n links. What is found: how many circuits there are in all.
#[tactic(auto, unfolding(refusals::specs::Table::verdict, crate::specs::Table::room_rows))]
fn of_rooms(
    n: usize,
    k: usize,
    m: usize,
    named: Named,
    fibres: usize,
    assigns: usize,
    work: usize,
) -> Result<usize, Refusal>
    requires { (n ≤ 512) × (k + m ≤ 2048) }
    ensures { result ≡ verdict (room_rows n k m named fibres assigns work) (k + m) }
{
    refusals::fibre_room_behind(fibres, named.fibres, m)?;
    refusals::assignment_room_behind(assigns, named.assignments, m)?;
    refusals::work_room(work, n, k + m)?;
    Ok(k + m)
}

// 13: the old plan, of the records that are named, is fit. What is found: how many fibres it has.
#[tactic(auto, unfolding(crate::specs::Table::unfit), using(crate::proofs::Accepting::fault_broken, crate::proofs::Accepting::fault_none))]
fn fit_plan(
    line: Line,
    old: &[u8],
    named: Named,
    fibres: &[u8],
    assigns: &[u8],
) -> Result<usize, Refusal>
    requires accepted { Accepted line.links line.wavelengths (length old.now / 8) old.now }
    requires fibres_in_bounds { (8 * named.fibres ≤ length fibres.now) × (8 * named.assignments ≤ length assigns.now) }
    ensures { result ≡ tested (row13 line old.now named fibres.now assigns.now) named.fibres }
{
    let k = old.len() / 8;
    if 2048 < named.fibres {
        return Err(Refusal::at_large(Reason::UnfitPlan));
    }
    let fault = rules::first_broken(
        line,
        old,
        fibres,
        assigns,
        k,
        named.fibres,
        named.assignments,
    );
    if fault.is_some() {
        return Err(Refusal::at_large(Reason::UnfitPlan));
    }
    Ok(named.fibres)
}

// The old plan, and the new numbers beside the old ones. What is found: how many circuits there are in all.
#[tactic(auto, unfolding(refusals::specs::Table::verdict, crate::specs::Table::old_rows))]
fn of_old(
    line: Line,
    old: &[u8],
    new: &[u8],
    named: Named,
    fibres: &[u8],
    assigns: &[u8],
) -> Result<usize, Refusal>
    requires { OldAsked line old.now new.now named fibres.now assigns.now }
    ensures { result ≡ verdict (old_rows line old.now new.now named fibres.now assigns.now) (length old.now / 8 + length new.now / 8) }
{
    let k = old.len() / 8;
    let m = new.len() / 8;
    fit_plan(line, old, named, fibres, assigns)?;
    two_files::unlike_old(old, k, new, m)?;
    Ok(k + m)
}

// All tests. What is found: how many circuits there are in both files.
#[tactic(auto, unfolding(crate::specs::Table::add_table, refusals::specs::Table::verdict), using(refusals::proofs::Chain::piece_gives, refusals::proofs::Chain::piece_leaves, two_files::proofs::Told::files_old, two_files::proofs::Told::files_room, two_files::proofs::Told::files_few, refusals::proofs::Chain::line_short))]
pub fn of_addition(
    line: Line,
    old: &[u8],
    new: &[u8],
    named: Named,
    fibres: &[u8],
    assigns: &[u8],
    work: &[u8],
) -> Result<usize, Refusal>
    ensures { result ≡ verdict (add_table line old.now new.now named (areas fibres.now assigns.now work.now)) (length old.now / 8 + length new.now / 8) }
{
    let n = line.links;
    let k = old.len() / 8;
    let m = new.len() / 8;
    two_files::admit::of_files(old, new)?;
    refusals::admit::of_line(line)?;
    two_files::admit::of_records(n, old, k, new, m)?;
    of_rooms(n, k, m, named, fibres.len(), assigns.len(), work.len())?;
    of_old(line, old, new, named, fibres, assigns)?;
    Ok(k + m)
}
