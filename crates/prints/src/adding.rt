// Which files program `adds` keeps, and what it prints.
// The lent areas go one by one: a struct that holds them by reference makes clauses say `.entry.` of each field.
ghost use Rattle.std.specs.Prelude.{◌≡◌, ◌+◌, ◌≤◌, length, take};
ghost use Rattle.std.specs.Option.{option_copied};
ghost use Rattle.prints.specs.Adding.{AddRead, AddStarts, add_printed, all_read, grown, grown_of, grown_text, Grows};
ghost use Rattle.prints.specs.Reads.{file_read, start_read};
ghost use Rattle.prints.specs.inner.Lent.{Appendable, Appended, Growable, Laid, old_read, records_read};

use adder::Named;
use files::Start;
use records::Line;

// How many bytes circuits.rec, fibres.rec and assign.rec have. A plan that is kept has two files, and clauses name them: one type for both would be no plainer.
#[derive(Clone, Copy, Debug, PartialEq, Eq)]
pub struct Lengths {
    pub circuits: usize,
    pub fibres: usize,
    pub assigns: usize,
}

// The files, where they are kept, and how many bytes the text has.
#[derive(Clone, Copy, Debug, PartialEq, Eq)]
pub struct Grown {
    pub files: Option<Lengths>,
    pub text: usize,
}

// How many records lists of f and a bytes have; where one is not whole records, more fibres than an addition takes, and the tests refuse them with the number that is
// wanted: an `Option` would be no plainer.
#[tactic(auto, unfolding(crate::specs::inner::Lent::records_read))]
fn records_read(f: usize, a: usize) -> Named
    ensures { result ≡ records_read f a }
{
    if f % 8 != 0 || a % 8 != 0 {
        return Named {
            fibres: 2049,
            assignments: 0,
        };
    }
    Named {
        fibres: f / 8,
        assignments: a / 8,
    }
}

// Adds to a plan in lent areas, and puts the text of the whole plan's sheet at the start of a buffer. The lists begin with the f and a bytes that were read.
fn grow_lists(
    line: Line,
    old: &[u8],
    new: &[u8],
    f: usize,
    fibres: &mut [u8],
    a: usize,
    assigns: &mut [u8],
    work: &mut [u8],
    out: &mut [u8],
) -> Grown
    requires { Growable f a fibres.old assigns.old × (10240 ≤ length work.old) × (213072 ≤ length out.old) }
    ensures { Laid (grown_of line (old_read old.now f fibres.old a assigns.old) new.now) (grown_text line (old_read old.now f fibres.old a assigns.old) new.now) result fibres.old fibres.new assigns.old assigns.new out.old out.new }
{
    let many = old.len() / 8 + new.len() / 8;
    let named = records_read(f, a);
    let answer = adder::add(line, old, new, named, fibres, assigns, work);
    let text = crate::write_answer(line.grid, answer, many, fibres, assigns, out);
    let Ok(counts) = answer else {
        return Grown { files: None, text };
    };
    let files = Some(Lengths {
        circuits: 8 * many,
        fibres: 8 * counts.fibres,
        assigns: 8 * many,
    });
    Grown { files, text }
}

// Where files are kept, puts the new circuits behind the first c bytes of the circuit buffer.
fn append_new(files: Option<Lengths>, c: usize, new: &[u8], circuits: &mut [u8])
    requires { Appendable files c new.now circuits.old }
    ensures { Appended files c new.now circuits.old circuits.new }
{
    if files.is_some() {
        text::write_words(new, &mut circuits[c..]);
    }
}

// Adds to the plan of the first c bytes of the circuit buffer, with a work area of its own.
#[tactic(auto, using(crate::proofs::AddingReads::room_behind, crate::proofs::AddingReads::all_filed))]
fn grow_circuits(
    line: Line,
    c: usize,
    circuits: &mut [u8],
    new: &[u8],
    f: usize,
    fibres: &mut [u8],
    a: usize,
    assigns: &mut [u8],
    out: &mut [u8],
) -> Grown
    requires { (c ≤ length circuits.old) × (16384 ≤ length circuits.old) × Growable f a fibres.old assigns.old × (213072 ≤ length out.old) }
    ensures { Grows (grown_of line (old_read (take c circuits.old) f fibres.old a assigns.old) new.now) (grown_text line (old_read (take c circuits.old) f fibres.old a assigns.old) new.now) result circuits.old circuits.new fibres.old fibres.new assigns.old assigns.new out.old out.new }
{
    let mut work = [0u8; 10240];
    let grown = grow_lists(
        line,
        &circuits[..c],
        new,
        f,
        fibres,
        a,
        assigns,
        &mut work,
        out,
    );
    append_new(grown.files, c, new, circuits);
    grown
}

// Which files are kept and what is printed, at the start of four buffers, from the bytes of the five files as far as they can be read. Three of them grow in the
// buffers where they were read, so of these it is told how many bytes were.
#[tactic(auto, unfolding(crate::specs::Adding::all_read, crate::specs::Adding::grown, crate::specs::Adding::add_printed))]
pub fn grow_files(
    line: Option<&[u8]>,
    got_circuits: Option<usize>,
    circuits: &mut [u8],
    new: Option<&[u8]>,
    got_fibres: Option<usize>,
    fibres: &mut [u8],
    got_assigns: Option<usize>,
    assigns: &mut [u8],
    out: &mut [u8],
) -> Grown
    requires { AddRead got_circuits (option_copied new) got_fibres got_assigns circuits.old fibres.old assigns.old × (213072 ≤ length out.old) }
    ensures { Grows (grown (all_read (option_copied line.entry) (file_read got_circuits circuits.old) (option_copied new.entry) (file_read got_fibres fibres.old) (file_read got_assigns assigns.old))) (add_printed (all_read (option_copied line.entry) (file_read got_circuits circuits.old) (option_copied new.entry) (file_read got_fibres fibres.old) (file_read got_assigns assigns.old))) result circuits.old circuits.new fibres.old fibres.new assigns.old assigns.new out.old out.new }
{
    let (Some(line), Some(c), Some(new), Some(f), Some(a)) = (
        line.and_then(records::line_in),
        got_circuits,
        new,
        got_fibres,
        got_assigns,
    ) else {
        return Grown {
            files: None,
            text: crate::write_unread(out),
        };
    };
    grow_circuits(line, c, circuits, new, f, fibres, a, assigns, out)
}

// The same, from the starts of `line.rec` and `new.rec`, each read into a buffer with room for more than counts.
#[tactic(auto, using(crate::proofs::Starts::held, crate::proofs::Starts::starts_read))]
pub fn grow_files_from_starts(
    line: Option<Start>,
    got_circuits: Option<usize>,
    circuits: &mut [u8],
    new: Option<Start>,
    got_fibres: Option<usize>,
    fibres: &mut [u8],
    got_assigns: Option<usize>,
    assigns: &mut [u8],
    out: &mut [u8],
) -> Grown
    requires { AddStarts line got_circuits new got_fibres got_assigns circuits.old fibres.old assigns.old × (213072 ≤ length out.old) }
    ensures { Grows (grown (all_read (start_read line.entry) (file_read got_circuits circuits.old) (start_read new.entry) (file_read got_fibres fibres.old) (file_read got_assigns assigns.old))) (add_printed (all_read (start_read line.entry) (file_read got_circuits circuits.old) (start_read new.entry) (file_read got_fibres fibres.old) (file_read got_assigns assigns.old))) result circuits.old circuits.new fibres.old fibres.new assigns.old assigns.new out.old out.new }
{
    grow_files(
        crate::bytes_of(line),
        got_circuits,
        circuits,
        crate::bytes_of(new),
        got_fibres,
        fibres,
        got_assigns,
        assigns,
        out,
    )
}
