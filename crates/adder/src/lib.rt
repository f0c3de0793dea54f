// Circuits added to a plan, none moved: the tests, the places on the old fibres, and new fibres for those that fit nowhere.
// The lent areas go one by one: a struct that holds them by reference makes clauses say `.entry.` of each field.
#![tactic(auto)]

ghost use Rattle.register.specs.Areas.{areas};
ghost use Rattle.adder.specs.Outcome.{Outcome};

use records::Line;
use refusals::Refusal;
use register::Counts;

mod admit;
mod grow;

// How many old records the fibre list and the assignment list begin with, as the caller names them.
#[derive(Clone, Copy, Debug, PartialEq, Eq)]
pub struct Named {
    pub fibres: usize,
    pub assignments: usize,
}

// Adds the circuits of a new file to the plan of those of an old one, on a line. What is told: the three numbers of the plan.
pub fn add(
    line: Line,
    old: &[u8],
    new: &[u8],
    named: Named,
    fibres: &mut [u8],
    assigns: &mut [u8],
    work: &mut [u8],
) -> Result<Counts, Refusal>
    ensures { Outcome line old.now new.now named (areas fibres.old assigns.old work.old) (areas fibres.new assigns.new work.new) result }
{
    admit::of_addition(line, old, new, named, fibres, assigns, work)?;
    Ok(grow::grow(line, old, new, named.fibres, fibres, assigns, work))
}
