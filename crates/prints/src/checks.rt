// What the check program prints, from what it read.
// The lent areas go one by one: a struct that holds them by reference makes clauses say `.entry.` of each field.
ghost use Rattle.std.specs.Prelude.{◌≤◌, length};
ghost use Rattle.std.specs.Option.{option_copied};
ghost use Rattle.text.specs.Wrote.{Wrote};
ghost use Rattle.prints.specs.Checks.{CheckRead, finding_text, check_of, check_printed};
ghost use Rattle.prints.specs.Reads.{AtMost, start_read};

use checker::Finding;
use files::Start;
use records::Line;
use refusals::Refusal;

// The one line of a finding, at the start of a buffer. What is told: its length.
fn write_finding(f: Result<Finding, Refusal>, out: &mut [u8]) -> usize
    requires { 80 ≤ length out.old }
    ensures { Wrote (finding_text f) result out.old out.new }
{
    match f {
        Ok(Finding::Yes { length, floor }) => sheet_text::write_yes(length, floor, out),
        Ok(Finding::No { rule, place }) => sheet_text::write_no(rule, place, out),
        Err(refusal) => sheet_text::write_refused(refusal, out),
    }
}

// Checks a plan, and puts the line of what is found at the start of a buffer. What is told: its length.
#[tactic(auto, unfolding(crate::specs::Checks::check_of))]
fn write_check(line: Line, circuits: &[u8], fibres: &[u8], assigns: &[u8], out: &mut [u8]) -> usize
    requires { 80 ≤ length out.old }
    ensures { Wrote (check_of line circuits.now fibres.now assigns.now) result out.old out.new }
{
    let f = checker::check_plan(line, circuits, fibres, assigns);
    write_finding(f, out)
}

// What the check program prints, at the start of a buffer, from the bytes of its four files as far as they can be read. What is told: its length.
#[tactic(auto, using(crate::proofs::CheckLaws::line_checked), unfolding(crate::specs::Checks::check_printed))]
pub fn print_check(
    line: Option<&[u8]>,
    circuits: Option<&[u8]>,
    fibres: Option<&[u8]>,
    assigns: Option<&[u8]>,
    out: &mut [u8],
) -> usize
    requires { AtMost 16392 (option_copied circuits) × (80 ≤ length out.old) }
    ensures { Wrote (check_printed (option_copied line.entry) (option_copied circuits.entry) (option_copied fibres.entry) (option_copied assigns.entry)) result out.old out.new }
{
    let (Some(line), Some(circuits), Some(fibres), Some(assigns)) = (
        line.and_then(records::line_in),
        circuits,
        fibres,
        assigns,
    ) else {
        return crate::write_unread(out);
    };
    write_check(line, circuits, fibres, assigns, out)
}

// The same, from the starts of its four files, each read into a buffer with room for more than counts.
#[tactic(auto, using(crate::proofs::Starts::held, crate::proofs::Starts::at_most))]
pub fn print_check_from_starts(
    line: Option<Start>,
    circuits: Option<Start>,
    fibres: Option<Start>,
    assigns: Option<Start>,
    out: &mut [u8],
) -> usize
    requires { CheckRead line circuits fibres assigns × (80 ≤ length out.old) }
    ensures { Wrote (check_printed (start_read line.entry) (start_read circuits.entry) (start_read fibres.entry) (start_read assigns.entry)) result out.old out.new }
{
    print_check(
        crate::bytes_of(line),
        crate::bytes_of(circuits),
        crate::bytes_of(fibres),
        crate::bytes_of(assigns),
        out,
    )
}
