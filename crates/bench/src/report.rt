// A line for each case.
use crate::inputs::Faults;
use crate::runs::Came;
use refusals::{End, Reason, Refusal};
use register::Counts;
use std::fmt;
use std::fmt::Write;
use std::io::Print;

// What `plan` answers.
pub type Answer = Result<Counts, Refusal>;

// An answer, to be printed.
#[derive(Clone, Copy, Debug, PartialEq, Eq)]
struct Told(Answer);

impl fmt::Display for Told {
    fn fmt<W: fmt::Write>(&self, f: &mut fmt::Formatter<W>) -> fmt::Result {
        match self.0 {
            Ok(counts) => write!(
                f,
                "planned {} {} {}",
                counts.fibres, counts.total, counts.floor
            ),
            Err(refusal) => {
                let number = u32::from(refusal.reason);
                let end = refusal.end_told();
                write!(f, "refused {number} {} {end}", refusal.place)
            }
        }
    }
}

// Standard output. A part that cannot be written is left out, and what follows is tried all the same.
#[derive(Drop)]
struct Output<'a, P>(&'a P);

impl<P: Print> fmt::Write for Output<'_, P> {
    fn write_str(&mut self, s: &str) -> fmt::Result {
        let _ = files::write_output(self.0, s.as_bytes());
        Ok(())
    }
}

// How many cases there were, and how many came out otherwise than expected.
#[derive(Clone, Copy, Debug, PartialEq, Eq)]
pub struct Tally {
    pub cases: u64,
    pub differ: u64,
}

impl Tally {
    // One case more. The counts stay far below where they would wrap.
    fn count(&mut self, agreed: bool) {
        self.cases = self.cases.wrapping_add(1);
        self.differ = self.differ.wrapping_add(u64::from(!agreed));
    }

    // Prints what was expected and what came, with how many bytes of each lent area are not as they should be.
    fn compare<P: Print>(&mut self, rt: &P, expected: Answer, came: Came) {
        self.count(came.answer == expected && came.astray == [0; 3]);
        let [fibres, assigns, work] = came.astray;
        let _ = writeln!(
            Output(rt),
            ": expected {}, came {}, bytes astray {fibres} {assigns} {work}",
            Told(expected),
            Told(came.answer)
        );
    }

    // A case with a name.
    pub fn case<P: Print>(&mut self, rt: &P, name: &str, expected: Answer, came: Came) {
        let _ = write!(Output(rt), "{name}");
        self.compare(rt, expected, came);
    }

    // A case of two faults, of which the first is given.
    pub fn pair<P: Print>(&mut self, rt: &P, f: Faults, came: Came) {
        let _ = write!(
            Output(rt),
            "faults {} {}",
            u32::from(f.one),
            u32::from(f.other)
        );
        self.compare(rt, Err(given(f.one)), came);
    }

    // Prints how many cases there were and how many differ.
    pub fn close<P: Print>(&self, rt: &P) {
        let _ = writeln!(Output(rt), "{} cases, {} differ", self.cases, self.differ);
    }
}

// The answer of a plan.
pub fn planned(fibres: usize, total: usize, floor: usize) -> Answer {
    Ok(Counts {
        fibres,
        total,
        floor,
    })
}

// The answer of a refusal that is about no record.
pub fn refused(reason: Reason) -> Answer {
    refused_at(reason, 0)
}

// The answer of a refusal that is about the record at a place.
pub fn refused_at(reason: Reason, place: u32) -> Answer {
    Err(Refusal::at(reason, place))
}

// The answer of a refusal for a wrong end of the record at a place.
pub fn wrong_end(place: u32, end: End) -> Answer {
    Err(Refusal {
        reason: Reason::WrongEnd,
        place,
        end: Some(end),
    })
}

// The refusal for a fault of the faulty files: its place, and as its end first past last.
fn given(fault: Reason) -> Refusal {
    let place = match fault {
        Reason::NumberZero => 4,
        Reason::WrongEnd => 3,
        Reason::NumberTwice => 2,
        _ => 0,
    };
    let end = (fault == Reason::WrongEnd).then_some(End::FirstPastLast);
    Refusal {
        reason: fault,
        place,
        end,
    }
}
