// Cells of two bytes in lent bytes.
ghost use Rattle.std.specs.Prelude.{◌≡◌, ◌+◌, ◌*◌, ◌<◌, length};
ghost use Rattle.records.specs.Bytes.{cell, set_cell};

use crate::numbers::{read16, write16};

// Cell k.
#[tactic(auto, unfolding(crate::specs::Bytes::cell))]
pub fn get(work: &[u8], k: usize) -> u16
    requires { 2 * k + 1 < length work.now }
    ensures { result ≡ cell work.now k }
{
    read16(work, 2 * k)
}

// Cell k becomes v.
#[tactic(auto, unfolding(crate::specs::Bytes::set_cell))]
pub fn put(work: &mut [u8], k: usize, v: u16)
    requires { 2 * k + 1 < length work.old }
    ensures { work.new ≡ set_cell work.old k v }
{
    write16(work, 2 * k, v);
}
