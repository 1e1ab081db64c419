// Text is put behind text in a buffer that the caller lends. The text so far is the buffer's first `written` bytes; each function answers
// how many there are then, and leaves the bytes behind them as they were.
#![tactic(auto)]

ghost use Rattle.std.specs.Prelude.{[], ◌∷◌, ◌+◌, ◌≤◌, ◌<◌, length};
ghost use Rattle.text.specs.Text.{decimal, Appended};

// One byte.
pub fn append_byte(out: &mut [u8], written: usize, byte: u8) -> usize
    requires { written < length out.old }
    ensures { Appended out.old written (byte ∷ []) out.new result }
{
    out[written] = byte;
    written + 1
}

// The bytes of `source`.
pub fn append_bytes(out: &mut [u8], written: usize, source: &[u8]) -> usize
    requires { written + length source.now ≤ length out.old }
    ensures { Appended out.old written source.now out.new result }
{
    let end = written + source.len();
    out[written..end].copy_from_slice(source);
    end
}

// A number in decimal: the digits ahead of the last are those of a tenth of it.
#[tactic(auto, using(crate::proofs::Laws::size_one, crate::proofs::Laws::size_more, crate::proofs::Laws::number_one))]
fn append_digits(out: &mut [u8], written: usize, number: u64) -> usize
    requires { written + length (decimal number) ≤ length out.old }
    ensures { Appended out.old written (decimal number) out.new result }
{
    if number < 10 {
        return append_byte(out, written, 48 + number as u8);
    }
    let ahead = append_digits(out, written, number / 10);
    append_byte(out, ahead, 48 + (number % 10) as u8)
}

// A number in decimal, of at most twenty digits.
#[tactic(auto, using(crate::proofs::Laws::decimal_length, crate::proofs::Laws::number_fits))]
pub fn append_number(out: &mut [u8], written: usize, number: u64) -> usize
    requires { written + 20 ≤ length out.old }
    ensures { Appended out.old written (decimal number) out.new result × (result ≤ written + 20) }
{
    append_digits(out, written, number)
}
