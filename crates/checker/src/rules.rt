// The rules, run through: the fibres, and the assignments.
// The rules go by their numbers, which is all that the scope of work calls them; the definitions look for the lowest.
// Records stand in lent bytes, so loops go over their places.
// The lent areas go one by one: a struct that holds them by reference makes clauses say `.entry.` of each field.
ghost use Rattle.std.specs.Prelude.{◌≡◌, [], ◌∷◌, ◌+◌, ◌*◌, ◌≤◌, length};
ghost use Rattle.records.specs.Records.{circuits_in};
ghost use Rattle.rows.specs.Accepted.{Accepted};
ghost use Rattle.checker.specs.Rules.{rules_of_fibre, rule6, rule7, lowest_broken, first_fault, fibre_rules, assignment_rules, first_broken};
ghost use Rattle.checker.specs.Checked.{fibres_in, assignments_in, fault_of, rule_told};
ghost use Rattle.checker.specs.inner.Runs.{own_rules_on, own_rules_in};

use records::{AssignmentRecord, Circuit, FibreRecord, Line};

// A broken rule and its place.
#[derive(Clone, Copy, Debug, PartialEq, Eq)]
pub struct Fault {
    pub rule: u32,
    pub place: u32,
}

// The lowest rule that fibre f at place i, counted from 0, breaks.
#[tactic(auto, unfolding(crate::specs::Rules::lowest_broken))]
fn fibre_rule(f: FibreRecord, i: usize, n: usize) -> Option<u32>
    requires { i ≤ 4096 }
    ensures { result ≡ rule_told (lowest_broken (rules_of_fibre n i f)) }
{
    if usize::from(f.number) != i + 1 {
        return Some(1);
    }
    if f.first == 0 || f.last < f.first || n < usize::from(f.last) {
        return Some(2);
    }
    None
}

// The first faulty one of k fibres, and its lowest rule.
pub fn fibre_fault(fibres: &[u8], k: usize, n: usize) -> Option<Fault>
    requires { (8 * k ≤ length fibres.now) × (k ≤ 4096) }
    ensures { result ≡ fault_of (first_fault (fibre_rules n (fibres_in k fibres.now)) k) }
{
    for i in 0..k {
        let f = records::record_at::<FibreRecord>(fibres, i);
        if let Some(rule) = fibre_rule(f, i, n) {
            return Some(Fault {
                rule,
                place: (i + 1) as u32,
            });
        }
    }
    None
}

// The lower of rules 6 and 7 that assignment a of circuit c on fibre f breaks.
#[tactic(auto, unfolding(crate::specs::Rules::lowest_broken))]
fn place_rule(c: Circuit, a: AssignmentRecord, f: FibreRecord, w: usize) -> Option<u32>
    ensures { result ≡ rule_told (lowest_broken (rule6 f c ∷ rule7 w a ∷ [])) }
{
    if c.first < f.first || f.last < c.last {
        return Some(6);
    }
    let v = usize::from(a.wavelength);
    if v < 1 || w < v {
        return Some(7);
    }
    None
}

// The lowest of rules 4 to 7 that assignment a of circuit c breaks.
#[tactic(auto, unfolding(crate::specs::Rules::lowest_broken))]
fn own_rule(c: Circuit, a: AssignmentRecord, fibres: &[u8], k: usize, w: usize) -> Option<u32>
    requires { 8 * k ≤ length fibres.now }
    ensures { result ≡ rule_told (lowest_broken (own_rules_on w k fibres.now c a)) }
{
    if a.circuit != c.number {
        return Some(4);
    }
    let q = usize::from(a.fibre);
    if q < 1 || k < q {
        return Some(5);
    }
    let f = records::record_at::<FibreRecord>(fibres, q - 1);
    place_rule(c, a, f, w)
}

// The lowest of rules 4 to 7 that assignment j breaks.
pub fn rule_at(
    circuits: &[u8],
    fibres: &[u8],
    assigns: &[u8],
    j: usize,
    k: usize,
    w: usize,
) -> Option<u32>
    requires { (8 * j + 8 ≤ length circuits.now) × (8 * k ≤ length fibres.now) × (8 * j + 8 ≤ length assigns.now) }
    ensures { result ≡ rule_told (lowest_broken (own_rules_in w k circuits.now fibres.now assigns.now j)) }
{
    let c = records::record_at::<Circuit>(circuits, j);
    let a = records::record_at::<AssignmentRecord>(assigns, j);
    own_rule(c, a, fibres, k, w)
}

// The first of m assignments that breaks one of rules 4 to 7, and the lowest of them.
fn first_own(
    circuits: &[u8],
    fibres: &[u8],
    assigns: &[u8],
    m: usize,
    k: usize,
    w: usize,
) -> Option<Fault>
    requires { (8 * m ≤ length circuits.now) × (8 * k ≤ length fibres.now) × (8 * m ≤ length assigns.now) × (m ≤ 2048) }
    ensures { result ≡ fault_of (first_fault (own_rules_in w k circuits.now fibres.now assigns.now) m) }
{
    for j in 0..m {
        if let Some(rule) = rule_at(circuits, fibres, assigns, j, k, w) {
            return Some(Fault {
                rule,
                place: (j + 1) as u32,
            });
        }
    }
    None
}

// The first faulty one of m assignments, and its lowest rule: a clash counts only before the first that breaks another rule.
fn assignment_fault(
    line: Line,
    circuits: &[u8],
    fibres: &[u8],
    assigns: &[u8],
    m: usize,
    k: usize,
) -> Option<Fault>
    requires accepted { Accepted line.links line.wavelengths m circuits.now }
    requires sizes { (8 * k ≤ length fibres.now) × (k ≤ 4096) × (8 * m ≤ length assigns.now) }
    ensures { result ≡ fault_of (first_fault (assignment_rules line.wavelengths (circuits_in m circuits.now) (fibres_in k fibres.now) (assignments_in m assigns.now)) m) }
{
    let own = first_own(circuits, fibres, assigns, m, k, line.wavelengths);
    let p = match own {
        Some(fault) => fault.place as usize - 1,
        None => m,
    };
    let q = clashes::first_clash(circuits, assigns, line.links, k, p);
    if q < p {
        return Some(Fault {
            rule: 8,
            place: (q + 1) as u32,
        });
    }
    own
}

// The first broken rule of m circuits that passed the tests, k fibres and l assignments, and its place.
pub fn first_broken(
    line: Line,
    circuits: &[u8],
    fibres: &[u8],
    assigns: &[u8],
    m: usize,
    k: usize,
    l: usize,
) -> Option<Fault>
    requires accepted { Accepted line.links line.wavelengths m circuits.now }
    requires sizes { (8 * k ≤ length fibres.now) × (k ≤ 4096) × (8 * l ≤ length assigns.now) }
    ensures { result ≡ fault_of (first_broken line (circuits_in m circuits.now) (fibres_in k fibres.now) (assignments_in l assigns.now)) }
{
    match fibre_fault(fibres, k, line.links) {
        Some(fault) => Some(fault),
        None if l != m => Some(Fault { rule: 3, place: 0 }),
        None => assignment_fault(line, circuits, fibres, assigns, m, k),
    }
}
