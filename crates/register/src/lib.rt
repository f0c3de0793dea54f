// Plans in bytes: the fibre list and the assignment list.
#![tactic(auto)]

ghost use Rattle.std.specs.Prelude.{◌≡◌};

use records::Line;

// How many fibres, their length, and the floor.
#[derive(Clone, Copy, Debug, PartialEq, Eq)]
pub struct Counts {
    pub fibres: usize,
    pub total: usize,
    pub floor: usize,
}

// How many links, wavelengths and circuits, and the number that fibres are numbered after.
#[derive(Clone, Copy, Debug, PartialEq, Eq)]
pub struct Job {
    pub links: usize,
    pub wavelengths: usize,
    pub circuits: usize,
    pub from: usize,
}

impl Job {
    // The job of planning so many circuits on a line, whose fibres are numbered after `from`.
    pub fn on(line: Line, circuits: usize, from: usize) -> Job
        ensures { result ≡ record { links = line.links; wavelengths = line.wavelengths; circuits = circuits; from = from } }
    {
        Job {
            links: line.links,
            wavelengths: line.wavelengths,
            circuits,
            from,
        }
    }
}
