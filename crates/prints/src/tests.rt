// Calls of each function that takes bytes, which need not come from a program's buffers: the listing of four circuits on five links.
use crate::{adding, checks, entering, keeping, typed};

const LINE: [u8; 4] = [5, 0, 2, 0];

const CIRCUITS: [u8; 32] = [
    10, 0, 0, 0, 1, 0, 3, 0, 20, 0, 0, 0, 2, 0, 5, 0, 30, 0, 0, 0, 1, 0, 2, 0, 40, 0, 0, 0, 4, 0,
    5, 0,
];

const FIBRES: [u8; 16] = [1, 0, 1, 0, 5, 0, 2, 0, 2, 0, 2, 0, 5, 0, 2, 0];

const ASSIGNMENTS: [u8; 32] = [
    10, 0, 0, 0, 1, 0, 2, 0, 20, 0, 0, 0, 2, 0, 1, 0, 30, 0, 0, 0, 1, 0, 1, 0, 40, 0, 0, 0, 1, 0,
    2, 0,
];

const TEXT: &[u8] = b"5 2\n10 1 3\n20 2 5\n30 1 2\n40 4 5\n";

const SHEET: &[u8] =
    b"F 1 1 5 2\nF 2 2 5 2\nC 10 1 2 192200\nC 20 2 1 192100\nC 30 1 1 192100\nC 40 1 2 192200\nT 2 9 6\n";

const UNREAD: &[u8] = b"R 11 0 0\n";

const NEW: [u8; 16] = [60, 0, 0, 0, 1, 0, 4, 0, 50, 0, 0, 0, 3, 0, 5, 0];

const GROWN: &[u8] =
    b"F 1 1 5 2\nF 2 2 5 2\nF 3 1 4 1\nC 10 1 2 192200\nC 20 2 1 192100\nC 30 1 1 192100\nC 40 1 2 192200\nC 60 3 1 192100\nC 50 1 1 192100\nT 3 13 10\n";

#[test]
fn the_sheet(rt: HostRuntime) {
    let mut out = [0u8; 147536];
    let k = crate::print_sheet(Some(&LINE), Some(&CIRCUITS), &mut out);
    assert_eq!(rt; &out[..k], SHEET);
    let k = crate::print_sheet(Some(&[0u8; 9]), Some(&CIRCUITS), &mut out);
    assert_eq!(rt; &out[..k], UNREAD);
}

#[test]
fn the_check(rt: HostRuntime) {
    let mut out = [0u8; 80];
    let k = checks::print_check(
        Some(&LINE),
        Some(&CIRCUITS),
        Some(&FIBRES),
        Some(&ASSIGNMENTS),
        &mut out,
    );
    assert_eq!(rt; &out[..k], b"Y 9 6\n".as_slice());
}

#[test]
fn the_lists(rt: HostRuntime) {
    let mut fibres = [0u8; 16384];
    let mut assigns = [0u8; 16384];
    let mut out = [0u8; 147536];
    let kept = keeping::keep_lists(
        Some(&LINE),
        Some(&CIRCUITS),
        &mut fibres,
        &mut assigns,
        &mut out,
    );
    assert_eq!(rt; &out[..kept.text], SHEET);
    assert_eq!(rt; kept.lists.map(|l| (l.fibres, l.assigns)), Some((16, 32)));
    assert!(rt; fibres.starts_with(&FIBRES));
    assert!(rt; assigns.starts_with(&ASSIGNMENTS));
}

#[test]
fn the_grown_plan(rt: HostRuntime) {
    let mut circuits = [0u8; 16392];
    circuits[..32].copy_from_slice(&CIRCUITS);
    let mut fibres = [0u8; 32776];
    fibres[..16].copy_from_slice(&FIBRES);
    let mut assigns = [0u8; 32776];
    assigns[..32].copy_from_slice(&ASSIGNMENTS);
    let mut out = [0u8; 213072];
    let grown = adding::grow_files(
        Some(&LINE),
        Some(32),
        &mut circuits,
        Some(&NEW),
        Some(16),
        &mut fibres,
        Some(32),
        &mut assigns,
        &mut out,
    );
    assert_eq!(rt; &out[..grown.text], GROWN);
    assert_eq!(rt;
        grown.files.map(|l| (l.circuits, l.fibres, l.assigns)),
        Some((48, 24, 48))
    );
    assert_eq!(rt; &circuits[32..48], NEW.as_slice());
}

#[test]
fn the_sheet_of_a_text(rt: HostRuntime) {
    let mut circuits = [0u8; 16384];
    let mut out = [0u8; 147664];
    let k = typed::print_typed(Some(TEXT), &mut circuits, &mut out);
    assert_eq!(rt; &out[..k], SHEET);
}

#[test]
fn the_files_of_a_text(rt: HostRuntime) {
    let mut line = [0u8; 6];
    let mut circuits = [0u8; 16384];
    let mut message = [0u8; 76];
    let made = entering::make_files(Some(TEXT), &mut line, &mut circuits, &mut message);
    assert_eq!(rt; &message[..made.message], b"circuits: 4\n".as_slice());
    assert!(rt; line.starts_with(&LINE));
    assert!(rt; circuits.starts_with(&CIRCUITS));
}
