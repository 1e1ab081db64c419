// Numbers in bytes, unsigned, low byte first, read and written at any place of a slice. The width is a constant of each call, so that the
// compiler makes one load or one store of it.
#![tactic(auto)]

ghost use Rattle.std.specs.Prelude.{◌≡◌, ◌+◌, ◌≤◌, ◌<◌, ◌^◌, length};
ghost use Rattle.words.specs.Words.{le, put};

// The number in the `W` bytes from `at` on.
fn read<const W: usize>(s: &[u8], at: usize) -> u64
    requires width { W ≤ 8 }
    requires within { at + W ≤ length s.now }
    ensures number { result ≡ le W s.now at }
    ensures fits { result < 256 ^ W }
{
    let mut bytes = [0; 8];
    bytes[..W].copy_from_slice(&s[at..at + W]);
    u64::from_le_bytes(bytes)
}

// Puts the low `W` bytes of `x` from `at` on.
fn write<const W: usize>(s: &mut [u8], at: usize, x: u64)
    requires width { W ≤ 8 }
    requires within { at + W ≤ length s.old }
    ensures { s.new ≡ put W s.old at x }
{
    s[at..at + W].copy_from_slice(&x.to_le_bytes()[..W]);
}

// The number in the 2 bytes from `at` on.
pub fn read16(s: &[u8], at: usize) -> u16
    requires { at + 2 ≤ length s.now }
    ensures { result ≡ le 2 s.now at }
{
    read::<2>(s, at) as u16
}

// The number in the 4 bytes from `at` on.
pub fn read32(s: &[u8], at: usize) -> u32
    requires { at + 4 ≤ length s.now }
    ensures { result ≡ le 4 s.now at }
{
    read::<4>(s, at) as u32
}

// The number in the 8 bytes from `at` on.
pub fn read64(s: &[u8], at: usize) -> u64
    requires { at + 8 ≤ length s.now }
    ensures { result ≡ le 8 s.now at }
{
    read::<8>(s, at)
}

// Puts `x` into the 2 bytes from `at` on.
pub fn write16(s: &mut [u8], at: usize, x: u16)
    requires { at + 2 ≤ length s.old }
    ensures { s.new ≡ put 2 s.old at x }
{
    write::<2>(s, at, u64::from(x));
}

// Puts `x` into the 4 bytes from `at` on.
pub fn write32(s: &mut [u8], at: usize, x: u32)
    requires { at + 4 ≤ length s.old }
    ensures { s.new ≡ put 4 s.old at x }
{
    write::<4>(s, at, u64::from(x));
}

// Puts `x` into the 8 bytes from `at` on.
pub fn write64(s: &mut [u8], at: usize, x: u64)
    requires { at + 8 ≤ length s.old }
    ensures { s.new ≡ put 8 s.old at x }
{
    write::<8>(s, at, x);
}
