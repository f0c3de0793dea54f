// What program `enter` makes of standard input.
ghost use Rattle.std.specs.Prelude.{◌≡◌, ◌≤◌, length};
ghost use Rattle.std.specs.Option.{option_copied};
ghost use Rattle.prints.specs.Entering.{MadeRead};
ghost use Rattle.prints.specs.Reads.{start_read, TextRead};

use entry_text::Made;
use files::Start;

// The bytes of both files and what is said of the text, from the text as far as standard input can be read.
#[tactic(auto, unfolding(text::specs::Words::words, text::specs::Words::codes))]
pub fn make_files(
    text: Option<&[u8]>,
    line: &mut [u8],
    circuits: &mut [u8],
    message: &mut [u8],
) -> Made
    requires { (length line.old ≡ 6) × (length circuits.old ≡ 16384) × (76 ≤ length message.old) }
    ensures { MadeRead (option_copied text.entry) result line.new circuits.new message.new }
{
    match text {
        Some(text) => entry_text::make_files(text, line, circuits, message),
        None => Made {
            files: None,
            message: text::write_words(b"standard input cannot be read\n", message),
        },
    }
}

// The same, from the start of standard input, read into a buffer with room for more than the longest text.
#[tactic(auto, using(crate::proofs::Starts::held))]
pub fn make_files_from_start(
    text: Option<Start>,
    line: &mut [u8],
    circuits: &mut [u8],
    message: &mut [u8],
) -> Made
    requires { TextRead text × ((length line.old ≡ 6) × (length circuits.old ≡ 16384) × (76 ≤ length message.old)) }
    ensures { MadeRead (start_read text.entry) result line.new circuits.new message.new }
{
    make_files(crate::bytes_of(text), line, circuits, message)
}
