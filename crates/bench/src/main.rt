// Runs the planner on its limits and refusals and prints what was expected and what came.
#![tactic(auto)]

mod inputs;
mod report;
mod runs;

use inputs::Faults;
use records::Circuit;
use refusals::{End, Reason};
use report::{Tally, planned, refused, refused_at, wrong_end};
use runs::{drawn, on_grid, sized};
use std::io::Print;

// The ends of the allowed n and w.
fn limits<P: Print>(rt: &P, t: &mut Tally) {
    t.case(
        rt,
        "case 9, 512 links",
        planned(0, 0, 0),
        runs::none(drawn(512, 1)),
    );
    t.case(
        rt,
        "case 9, 513 links",
        refused(Reason::Links),
        runs::none(drawn(513, 1)),
    );
    t.case(
        rt,
        "case 9, 0 links",
        refused(Reason::Links),
        runs::none(drawn(0, 1)),
    );
    t.case(
        rt,
        "case 9, w = 40",
        planned(0, 0, 0),
        runs::none(drawn(1, 40)),
    );
    t.case(
        rt,
        "case 9, w = 41",
        refused(Reason::Wavelengths),
        runs::none(drawn(1, 41)),
    );
    t.case(
        rt,
        "case 9, w = 0",
        refused(Reason::Wavelengths),
        runs::none(drawn(1, 0)),
    );
}

// The ends of the allowed numbers of circuits.
fn crowds<P: Print>(rt: &P, t: &mut Tally) {
    t.case(
        rt,
        "case 9, 2048 circuits on 512 links, w = 40",
        planned(52, 26624, 26624),
        runs::crowd(drawn(512, 40), 2048, 512),
    );
    t.case(
        rt,
        "case 9, 2048 circuits on 1 of 512 links, w = 1",
        planned(2048, 2048, 2048),
        runs::crowd(drawn(512, 1), 2048, 1),
    );
    t.case(
        rt,
        "case 9, 2049 circuits",
        refused(Reason::TooManyCircuits),
        runs::crowd(drawn(512, 40), 2049, 512),
    );
}

// A circuit with a number and ends.
fn circuit(number: u32, first: u16, last: u16) -> Circuit {
    Circuit {
        number,
        first,
        last,
    }
}

// A circuit with the given ends.
fn ends(first: u16, last: u16) -> Circuit {
    circuit(7, first, last)
}

// The ends of a circuit, on a line of 5 links.
fn last_links<P: Print>(rt: &P, t: &mut Tally) {
    t.case(
        rt,
        "case 10, first = last = n",
        planned(1, 1, 1),
        runs::one(drawn(5, 1), ends(5, 5)),
    );
    t.case(
        rt,
        "case 10, last = n + 1",
        wrong_end(1, End::LastPastLine),
        runs::one(drawn(5, 1), ends(5, 6)),
    );
    t.case(
        rt,
        "case 10, first = 0",
        wrong_end(1, End::FirstZero),
        runs::one(drawn(5, 1), ends(0, 1)),
    );
    t.case(
        rt,
        "case 10, first past last",
        wrong_end(1, End::FirstPastLast),
        runs::one(drawn(5, 1), ends(3, 2)),
    );
}

// A circuit on link 1 with the given number.
fn numbered(number: u32) -> Circuit {
    circuit(number, 1, 1)
}

// The numbers of the circuits.
fn numbers<P: Print>(rt: &P, t: &mut Tally) {
    t.case(
        rt,
        "case 11, zero number in record 2, bad end in record 1",
        refused_at(Reason::NumberZero, 2),
        runs::three(ends(1, 9), numbered(0), numbered(8)),
    );
    t.case(
        rt,
        "case 12, numbers 4, 4, 4",
        refused_at(Reason::NumberTwice, 2),
        runs::three(numbered(4), numbered(4), numbered(4)),
    );
    t.case(
        rt,
        "case 12, numbers 4, 5, 4",
        refused_at(Reason::NumberTwice, 3),
        runs::three(numbered(4), numbered(5), numbered(4)),
    );
    t.case(
        rt,
        "case 12, number 4294967295",
        planned(1, 1, 1),
        runs::one(drawn(1, 1), numbered(4294967295)),
    );
}

// Whole records and too few or too many bytes.
fn lengths<P: Print>(rt: &P, t: &mut Tally) {
    t.case(
        rt,
        "a file of 7 bytes",
        refused(Reason::PartRecord),
        runs::cut(7),
    );
    t.case(rt, "a file of 8 bytes", planned(1, 1, 1), runs::cut(8));
    t.case(
        rt,
        "a file of 9 bytes",
        refused(Reason::PartRecord),
        runs::cut(9),
    );
}

// Lent areas that hold exactly what one circuit on one link needs, and one byte less.
fn rooms<P: Print>(rt: &P, t: &mut Tally) {
    t.case(
        rt,
        "room for 8, 8 and 8 bytes",
        planned(1, 1, 1),
        runs::lent(sized(8, 8, 8)),
    );
    t.case(
        rt,
        "fibre list of 7 bytes",
        refused(Reason::FibreRoom),
        runs::lent(sized(7, 8, 8)),
    );
    t.case(
        rt,
        "assignment list of 7 bytes",
        refused(Reason::AssignmentRoom),
        runs::lent(sized(8, 7, 8)),
    );
    t.case(
        rt,
        "work area of 7 bytes",
        refused(Reason::WorkRoom),
        runs::lent(sized(8, 8, 7)),
    );
}

// Which runs of links become fibres. Where ten pairs leave two fibres, the bytes behind these stay.
fn stretches<P: Print>(rt: &P, t: &mut Tally) {
    t.case(
        rt,
        "R-1, a gap splits",
        planned(3, 5, 5),
        runs::three(circuit(1, 4, 4), circuit(2, 1, 2), circuit(3, 2, 3)),
    );
    t.case(
        rt,
        "R-1, circuits that abut join",
        planned(1, 5, 5),
        runs::three(circuit(1, 1, 1), circuit(2, 2, 2), circuit(3, 3, 5)),
    );
    t.case(
        rt,
        "R-1, two fibres of ten pairs",
        planned(2, 40, 30),
        runs::chain(),
    );
}

// Which end is wrong: the first of its faults that the first faulty record has.
fn wrong_ends<P: Print>(rt: &P, t: &mut Tally) {
    t.case(
        rt,
        "R-6, [9, 8] on 5 links",
        wrong_end(1, End::FirstPastLast),
        runs::one(drawn(5, 1), ends(9, 8)),
    );
    t.case(
        rt,
        "R-6, [0, 9] on 5 links",
        wrong_end(1, End::FirstZero),
        runs::one(drawn(5, 1), ends(0, 9)),
    );
    t.case(
        rt,
        "R-6, [1, 6] before [0, 1]",
        wrong_end(2, End::LastPastLine),
        runs::three(circuit(1, 1, 1), circuit(2, 1, 6), circuit(3, 0, 1)),
    );
}

// Grid 2: up to 80 wavelengths.
fn fifty<P: Print>(rt: &P, t: &mut Tally) {
    t.case(
        rt,
        "R-5, w = 41 on grid 2",
        planned(0, 0, 0),
        runs::none(on_grid(1, 41, 2)),
    );
    t.case(
        rt,
        "R-5, w = 81 on grid 2",
        refused(Reason::Wavelengths),
        runs::none(on_grid(1, 81, 2)),
    );
    t.case(
        rt,
        "R-5, w = 81 on grid 1",
        refused(Reason::Wavelengths),
        runs::none(on_grid(1, 81, 1)),
    );
    t.case(
        rt,
        "R-5, 2048 circuits on 512 links, w = 80 on grid 2",
        planned(26, 13312, 13312),
        runs::crowd(on_grid(512, 80, 2), 2048, 512),
    );
}

// Grids that there are not.
fn no_grid<P: Print>(rt: &P, t: &mut Tally) {
    t.case(
        rt,
        "R-5, grid 0",
        refused(Reason::Grid),
        runs::none(on_grid(1, 1, 0)),
    );
    t.case(
        rt,
        "R-5, grid 3",
        refused(Reason::Grid),
        runs::none(on_grid(1, 1, 3)),
    );
    t.case(
        rt,
        "R-5, grid 65537",
        refused(Reason::Grid),
        runs::none(on_grid(1, 1, 65537)),
    );
    t.case(
        rt,
        "R-5, grid 4294967298",
        refused(Reason::Grid),
        runs::none(on_grid(1, 1, 4294967298)),
    );
    t.case(
        rt,
        "R-5, grid 3 and w = 0",
        refused(Reason::Grid),
        runs::none(on_grid(1, 0, 3)),
    );
    t.case(
        rt,
        "R-5, grid 3 and 0 links",
        refused(Reason::Links),
        runs::none(on_grid(0, 1, 3)),
    );
}

// The faults of the table but 12, in its order.
const FAULTS: [Reason; 10] = [
    Reason::PartRecord,
    Reason::TooManyCircuits,
    Reason::Links,
    Reason::Wavelengths,
    Reason::NumberZero,
    Reason::WrongEnd,
    Reason::NumberTwice,
    Reason::FibreRoom,
    Reason::AssignmentRoom,
    Reason::WorkRoom,
];

// Fault 12 and another, in the order of the table: 12 stands just before 4.
fn with_grid(other: Reason) -> Faults {
    match other {
        Reason::PartRecord | Reason::TooManyCircuits | Reason::Links => Faults {
            one: other,
            other: Reason::Grid,
        },
        _ => Faults {
            one: Reason::Grid,
            other,
        },
    }
}

// Fault 12 with each other fault.
fn grid_precedence<P: Print>(rt: &P, t: &mut Tally) {
    for other in FAULTS {
        let faults = with_grid(other);
        t.pair(rt, faults, runs::faulty(faults));
    }
}

// Each fault of the table but 12, alone and with each later one: the lower number is given.
fn precedence<P: Print>(rt: &P, t: &mut Tally) {
    for (i, one) in FAULTS.into_iter().enumerate() {
        for other in FAULTS.into_iter().skip(i) {
            let faults = Faults { one, other };
            t.pair(rt, faults, runs::faulty(faults));
        }
    }
}

// All cases.
fn all<P: Print>(rt: &P) {
    let mut t = Tally {
        cases: 0,
        differ: 0,
    };
    limits(rt, &mut t);
    crowds(rt, &mut t);
    last_links(rt, &mut t);
    numbers(rt, &mut t);
    lengths(rt, &mut t);
    rooms(rt, &mut t);
    stretches(rt, &mut t);
    wrong_ends(rt, &mut t);
    fifty(rt, &mut t);
    no_grid(rt, &mut t);
    precedence(rt, &mut t);
    grid_precedence(rt, &mut t);
    t.close(rt);
}

// Runs all cases. Output that nobody reads changes nothing.
fn main(rt: HostRuntime) {
    all(&rt);
}
