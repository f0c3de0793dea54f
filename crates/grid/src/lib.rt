// The grids: how many wavelengths each has, and which channel and frequency a wavelength is.
#![tactic(auto)]

ghost use Rattle.std.specs.Prelude.{◌≡◌, pos};
ghost use Rattle.grid.specs.Frequencies.{is_grid, limit_of, anchor_of, spacing_of, channel_of, frequency_of};

// Whether there is a grid of this number. A grid goes by its number, since a file may say any: an enum of the two is no plainer.
#[tactic(auto, unfolding(crate::specs::Frequencies::is_grid))]
pub fn is_grid(grid: usize) -> bool
    ensures { result ≡ is_grid grid }
{
    matches!(grid, 1 | 2)
}

// How many wavelengths a grid has.
#[tactic(auto, unfolding(crate::specs::Frequencies::limit_of))]
pub fn limit(grid: usize) -> usize
    ensures { result ≡ limit_of grid }
{
    match grid {
        2 => 80,
        _ => 40,
    }
}

// Which wavelength is channel 0.
#[tactic(auto, unfolding(crate::specs::Frequencies::anchor_of))]
fn anchor(grid: usize) -> i32
    ensures { result ≡ pos (anchor_of grid) }
{
    match grid {
        2 => 21,
        _ => 11,
    }
}

// How many GHz lie between two channels.
#[tactic(auto, unfolding(crate::specs::Frequencies::spacing_of))]
fn spacing(grid: usize) -> i32
    ensures { result ≡ pos (spacing_of grid) }
{
    match grid {
        2 => 50,
        _ => 100,
    }
}

// The channel number of wavelength v: negative, zero or positive.
pub fn channel(grid: usize, v: u16) -> i32
    ensures { result ≡ channel_of grid v }
{
    i32::from(v) - anchor(grid)
}

// The frequency of wavelength v in GHz.
pub fn frequency(grid: usize, v: u16) -> u32
    ensures { pos result ≡ frequency_of grid v }
{
    (193100 + spacing(grid) * channel(grid, v)) as u32
}
