// Numbers in bytes, low byte first.
ghost use Rattle.std.specs.Prelude.{◌≡◌, ◌+◌, ◌/◌, ◌%◌, ◌<◌, length, set};
ghost use Rattle.records.specs.Bytes.{le16, le32};
ghost use Rattle.records.specs.inner.Stores.{set16, set32};

// The 2-byte number at byte k.
pub fn read16(bytes: &[u8], k: usize) -> u16
    requires { k + 1 < length bytes.now }
    ensures { result ≡ le16 bytes.now k }
{
    u16::from_le_bytes([bytes[k], bytes[k + 1]])
}

// The 4-byte number at byte k.
pub fn read32(bytes: &[u8], k: usize) -> u32
    requires { k + 3 < length bytes.now }
    ensures { result ≡ le32 bytes.now k }
{
    u32::from_le_bytes([bytes[k], bytes[k + 1], bytes[k + 2], bytes[k + 3]])
}

// The 2-byte number at byte k becomes v.
pub(crate) fn write16(bytes: &mut [u8], k: usize, v: u16)
    requires { k + 1 < length bytes.old }
    ensures { bytes.new ≡ set16 bytes.old k v }
{
    let [low, high] = v.to_le_bytes();
    bytes[k] = low;
    bytes[k + 1] = high;
}

// The 4-byte number at byte k becomes v.
pub(crate) fn write32(bytes: &mut [u8], k: usize, v: u32)
    requires { k + 3 < length bytes.old }
    ensures { bytes.new ≡ set32 bytes.old k v }
{
    let [first, second, third, fourth] = v.to_le_bytes();
    bytes[k] = first;
    bytes[k + 1] = second;
    bytes[k + 2] = third;
    bytes[k + 3] = fourth;
}
