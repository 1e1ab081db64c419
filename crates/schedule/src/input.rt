// What a program reads, and the buffers that it reads into.
ghost use Rattle.std.specs.Prelude.{◌≡◌, ℕ, length, slice_index};
ghost use Rattle.std.specs.Io.{ReadsAtMost};

use std::io;
use std::io::Read;

// A buffer of `N` bytes, all zero.
pub fn zeros<const N: usize>() -> [u8; N]
    ensures long { N ≡ length result }
    ensures zero { (k : ℕ) → slice_index result k ≡ 0 }
{
    [0; N]
}

// The input's first bytes, as many as `buf` has; the answer is how many there were.
pub fn read_full<R: Read>(input: &mut R, buf: &mut [u8]) -> io::Result<usize>
    ensures read { ReadsAtMost result buf.new }
    ensures kept { length buf.new ≡ length buf.old }
{
    let mut filled = 0;
    while filled < buf.len() {
        let count = input.read(&mut buf[filled..])?;
        if count == 0 {
            break;
        }
        filled += count;
    }
    Ok(filled)
}
