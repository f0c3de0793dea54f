// The tests of mending, in their order: the first refusal that applies. Nothing is written.
// The lent areas go one by one: a struct that holds them by reference makes clauses say `.entry.` of each field.
ghost use Rattle.std.specs.Prelude.{◌≡◌, ◌*◌, ◌/◌, ◌≤◌, length};
ghost use Rattle.refusals.specs.Table.{tested, verdict};
ghost use Rattle.mender.specs.Report.{lent_areas};
ghost use Rattle.mender.specs.Table.{row16, row20, row23, lent_rows, mend_table};

use checker::rules;
use records::Line;
use refusals::{Reason, Refusal};

// 16: a list of `has` bytes is whole records, one for each of m circuits. What is found: how many bytes.
fn one_each(has: usize, m: usize) -> Result<usize, Refusal>
    requires { m ≤ 2048 }
    ensures { result ≡ tested (row16 m has) has }
{
    if has != 8 * m {
        return Err(Refusal::at(Reason::PartList, 2));
    }
    Ok(has)
}

// 20: the fibres are not too many, and none breaks rule 1 or 2. What is found: how many.
#[tactic(auto, using(crate::proofs::Judging::faulty_place, crate::proofs::Judging::none_faulty))]
fn fit_fibres(n: usize, many: usize, fibres: &[u8]) -> Result<usize, Refusal>
    requires { 8 * many ≤ length fibres.now }
    ensures { result ≡ tested (row20 n many fibres.now) many }
{
    if 2048 < many {
        return Err(Refusal::at_large(Reason::UnfitFibres));
    }
    match rules::fibre_fault(fibres, many, n) {
        Some(fault) => Err(Refusal::at(Reason::UnfitFibres, fault.place)),
        None => Ok(many),
    }
}

// 23: a report of `has` bytes has room for a line for each of m circuits. What is found: how many bytes.
fn report_room(has: usize, m: usize) -> Result<usize, Refusal>
    requires { m ≤ 2048 }
    ensures { result ≡ tested (row23 m has) has }
{
    if has < 12 * m {
        return Err(Refusal::at_large(Reason::ReportRoom));
    }
    Ok(has)
}

// The lent lists and areas, for m circuits on n links behind `many` fibres. What is found: how many circuits.
#[tactic(auto, unfolding(refusals::specs::Table::verdict, crate::specs::Table::lent_rows), using(crate::proofs::Judging::room_there))]
fn of_lent(
    n: usize,
    m: usize,
    many: usize,
    fibres: &[u8],
    assigns: &[u8],
    report: &[u8],
    work: &[u8],
) -> Result<usize, Refusal>
    requires { (n ≤ 512) × (m ≤ 2048) }
    ensures { result ≡ verdict (lent_rows n m many (lent_areas fibres.now assigns.now report.now work.now)) m }
{
    refusals::fibre_room_behind(fibres.len(), many, m)?;
    refusals::work_room(work.len(), n, m)?;
    one_each(assigns.len(), m)?;
    fit_fibres(n, many, fibres)?;
    report_room(report.len(), m)?;
    Ok(m)
}

// All tests. What is found: how many circuits.
#[tactic(auto, unfolding(crate::specs::Table::mend_table, refusals::specs::Table::verdict), using(refusals::proofs::Chain::piece_gives, refusals::proofs::Chain::piece_leaves, refusals::proofs::Chain::circuits_few, refusals::proofs::Chain::circuits_short))]
pub fn of_mending(
    line: Line,
    circuits: &[u8],
    many: usize,
    fibres: &[u8],
    assigns: &[u8],
    report: &[u8],
    work: &[u8],
) -> Result<usize, Refusal>
    ensures { result ≡ verdict (mend_table line circuits.now many (lent_areas fibres.now assigns.now report.now work.now)) (length circuits.now / 8) }
{
    let m = circuits.len() / 8;
    refusals::admit::of_circuits(line, circuits)?;
    of_lent(line.links, m, many, fibres, assigns, report, work)?;
    Ok(m)
}
