// Fields, at the start of a lent buffer.
ghost use Rattle.std.specs.Prelude.{◌≤◌, length};
ghost use Rattle.sheet_text.specs.Text.{fields};
ghost use Rattle.text.specs.Wrote.{Wrote};

// A space and x, for each field x. What is told: how many bytes.
pub fn write_fields(xs: &[usize], out: &mut [u8]) -> usize
    requires { length (fields xs.now) ≤ length out.old }
    ensures { Wrote (fields xs.now) result out.old out.new }
{
    let mut at = 0;
    for x in xs {
        text::write_byte(b' ', &mut out[at..]);
        at += 1;
        at += text::write_decimal(*x, &mut out[at..]);
    }
    at
}
