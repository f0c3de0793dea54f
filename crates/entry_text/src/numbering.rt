// Lines of a text by their number, counted from 1.
// What is told where there is none is the end or 0, as in the definitions: the number is printed as it is, so an `Option` would be no plainer.
ghost use Rattle.std.specs.Prelude.{◌≡◌, ◌-◌, ◌≤◌, length};
ghost use Rattle.entry_text.specs.Lines.{next_line, line_start, line_of_record};

use crate::{lines, words};

// Where the line after the one that starts at i starts.
#[tactic(auto, unfolding(crate::specs::Lines::next_line))]
fn next_line(text: &[u8], i: usize) -> usize
    requires { i ≤ length text.now }
    ensures { (result ≡ next_line text.now i) × (result ≤ length text.now) }
{
    text.len().min(words::line_end(text, i) + 1)
}

// Where the line of this number starts, or the end of a text with fewer lines.
pub fn line_start(text: &[u8], line: usize) -> usize
    ensures { (result ≡ line_start text.now line) × (result ≤ length text.now) }
{
    let mut i = 0;
    for _ in 1..line {
        i = next_line(text, i);
    }
    i
}

// The number of the line that holds circuit k, counted from 1, or of the header for 0, or 0 if there is none.
pub fn line_of_record(text: &[u8], k: usize) -> usize
    requires { length text.now ≤ 1048576 }
    ensures { result ≡ line_of_record text.now k }
{
    let mut i = 0;
    let mut number = 1;
    for _ in 0..k {
        let Ok(line) = lines::next_counted(text, i, number) else {
            return 0;
        };
        i = line.end + 1;
        number = line.number + 1;
    }
    match lines::next_counted(text, i, number) {
        Ok(line) => line.number,
        Err(_) => 0,
    }
}
