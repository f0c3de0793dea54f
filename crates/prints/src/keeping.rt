// Which lists program `lists` keeps, and what it prints.
// The lent areas go one by one: a struct that holds them by reference makes clauses say `.entry.` of each field.
ghost use Rattle.std.specs.Prelude.{◌≤◌, length};
ghost use Rattle.std.specs.Option.{option_copied};
ghost use Rattle.prints.specs.Keeping.{Keeps, kept, lists_of};
ghost use Rattle.prints.specs.Reads.{AtMost, SheetRead, start_read};
ghost use Rattle.prints.specs.Sheets.{printed, sheet_of};
ghost use Rattle.prints.specs.inner.Lent.{Ample};

use files::Start;
use records::Line;

// How many bytes fibres.rec and assign.rec have.
#[derive(Clone, Copy, Debug, PartialEq, Eq)]
pub struct Lengths {
    pub fibres: usize,
    pub assigns: usize,
}

// The lists, where they are kept, and how many bytes the text has.
#[derive(Clone, Copy, Debug, PartialEq, Eq)]
pub struct Kept {
    pub lists: Option<Lengths>,
    pub text: usize,
}

// Plans in lent areas, and puts the text of the sheet at the start of a buffer.
fn keep_plan_in(
    line: Line,
    circuits: &[u8],
    fibres: &mut [u8],
    assigns: &mut [u8],
    work: &mut [u8],
    out: &mut [u8],
) -> Kept
    requires { Ample fibres.old assigns.old work.old × (147536 ≤ length out.old) }
    ensures { Keeps (lists_of line circuits.now) (sheet_of line circuits.now) result fibres.old fibres.new assigns.old assigns.new out.old out.new }
{
    let many = circuits.len() / 8;
    let answer = planner::plan(line, circuits, fibres, assigns, work);
    let text = crate::write_answer(line.grid, answer, many, fibres, assigns, out);
    let Ok(counts) = answer else {
        return Kept { lists: None, text };
    };
    let lists = Some(Lengths {
        fibres: 8 * counts.fibres,
        assigns: 8 * many,
    });
    Kept { lists, text }
}

// Plans in lent lists and a work area of its own.
pub fn keep_plan(
    line: Line,
    circuits: &[u8],
    fibres: &mut [u8],
    assigns: &mut [u8],
    out: &mut [u8],
) -> Kept
    requires { (16384 ≤ length fibres.old) × (16384 ≤ length assigns.old) × (147536 ≤ length out.old) }
    ensures { Keeps (lists_of line circuits.now) (sheet_of line circuits.now) result fibres.old fibres.new assigns.old assigns.new out.old out.new }
{
    let mut work = [0u8; 10240];
    keep_plan_in(line, circuits, fibres, assigns, &mut work, out)
}

// Which lists are kept and what is printed, at the start of three buffers, from the bytes of its two files as far as they can be read.
#[tactic(auto, using(crate::proofs::Printing::line_printed, crate::proofs::KeepingLaws::line_kept), unfolding(crate::specs::Sheets::printed, crate::specs::Keeping::kept))]
pub fn keep_lists(
    line: Option<&[u8]>,
    circuits: Option<&[u8]>,
    fibres: &mut [u8],
    assigns: &mut [u8],
    out: &mut [u8],
) -> Kept
    requires { AtMost 16392 (option_copied circuits) × ((16384 ≤ length fibres.old) × (16384 ≤ length assigns.old) × (147536 ≤ length out.old)) }
    ensures { Keeps (kept (option_copied line.entry) (option_copied circuits.entry)) (printed (option_copied line.entry) (option_copied circuits.entry)) result fibres.old fibres.new assigns.old assigns.new out.old out.new }
{
    let (Some(line), Some(circuits)) = (line.and_then(records::line_in), circuits) else {
        return Kept {
            lists: None,
            text: crate::write_unread(out),
        };
    };
    keep_plan(line, circuits, fibres, assigns, out)
}

// The same, from the starts of its two files, each read into a buffer with room for more than counts.
#[tactic(auto, using(crate::proofs::Starts::held, crate::proofs::Starts::at_most))]
pub fn keep_lists_from_starts(
    line: Option<Start>,
    circuits: Option<Start>,
    fibres: &mut [u8],
    assigns: &mut [u8],
    out: &mut [u8],
) -> Kept
    requires { SheetRead line circuits × ((16384 ≤ length fibres.old) × (16384 ≤ length assigns.old) × (147536 ≤ length out.old)) }
    ensures { Keeps (kept (start_read line.entry) (start_read circuits.entry)) (printed (start_read line.entry) (start_read circuits.entry)) result fibres.old fibres.new assigns.old assigns.new out.old out.new }
{
    keep_lists(
        crate::bytes_of(line),
        crate::bytes_of(circuits),
        fibres,
        assigns,
        out,
    )
}
