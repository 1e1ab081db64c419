// The lines that only cases have, made of the same pieces as those of `lines`. Each is put at the start of a buffer that the caller lends,
// and answers how many bytes there are then.
ghost use Rattle.std.specs.Prelude.{◌≡◌, ◌+◌, ◌*◌, ◌≤◌, length};

use agents::Answer;

// case NUMBER
pub fn case_line(out: &mut [u8], number: u64) -> usize
    requires { 32 ≤ length out.old }
    ensures { (result ≤ 32) × (result ≤ length out.new) }
{
    let a = text::append_bytes(out, 0, b"case");
    let b = lines::append_field(out, a, number);
    text::append_byte(out, b, b'\n')
}

// malformed case NUMBER
pub fn malformed_line(out: &mut [u8], number: u64) -> usize
    requires { 48 ≤ length out.old }
    ensures { result ≤ 48 }
{
    let a = text::append_bytes(out, 0, b"malformed ");
    let b = text::append_bytes(out, a, b"case");
    let c = lines::append_field(out, b, number);
    text::append_byte(out, c, b'\n')
}

// An answer in words; with a refusal goes its place.
fn append_answer(out: &mut [u8], written: usize, answer: Answer) -> usize
    requires { written + 89 ≤ length out.old }
    ensures { result ≤ written + 89 }
{
    let a = lines::append_answer(out, written, answer);
    match answer {
        Err(no) => {
            let b = lines::append_field(out, a, no.workflow as u64);
            lines::append_field(out, b, no.instruction as u64)
        }
        Ok(_) => a,
    }
}

// answer ANSWER
pub fn answer_line(out: &mut [u8], answer: Answer) -> usize
    requires { 97 ≤ length out.old }
    ensures { result ≤ 97 }
{
    let a = text::append_bytes(out, 0, b"answer ");
    let b = append_answer(out, a, answer);
    text::append_byte(out, b, b'\n')
}

// used PARTITION COUNT
pub fn used_line(out: &mut [u8], partition: u64, count: u64) -> usize
    requires { 64 ≤ length out.old }
    ensures { result ≤ 64 }
{
    let a = text::append_bytes(out, 0, b"used");
    let b = lines::append_field(out, a, partition);
    let c = lines::append_field(out, b, count);
    text::append_byte(out, c, b'\n')
}

// So many words, each behind a blank.
fn append_words(out: &mut [u8], written: usize, bytes: &[u8], count: usize) -> usize
    requires { (count ≤ 12) × (written + 21 * count ≤ length out.old) × (4 * count ≤ length bytes.now) }
    ensures { result ≤ written + 21 * count }
{
    let mut reached = written;
    for i in 0..count {
        reached = lines::append_field(out, reached, words::read32(bytes, 4 * i) as u64);
    }
    reached
}

// answer figures TURNS R0 .. R7
pub fn figures_line(out: &mut [u8], figures: &[u8]) -> usize
    requires { (204 ≤ length out.old) × (36 ≤ length figures.now) }
    ensures { result ≤ 204 }
{
    let a = text::append_bytes(out, 0, b"answer figures");
    let b = append_words(out, a, figures, 9);
    text::append_byte(out, b, b'\n')
}

// list ID MARK
pub fn list_line(out: &mut [u8], entry: &[u8]) -> usize
    requires { (48 ≤ length out.old) × (8 ≤ length entry.now) }
    ensures { result ≤ 48 }
{
    let a = text::append_bytes(out, 0, b"list");
    let b = append_words(out, a, entry, 2);
    text::append_byte(out, b, b'\n')
}

// agent SLOT IN_USE ID POSITION STEP R0 .. R7
pub fn agent_line(out: &mut [u8], slot: u64, agent: &[u8]) -> usize
    requires { (300 ≤ length out.old) × (48 ≤ length agent.now) }
    ensures { result ≤ 300 }
{
    let a = text::append_bytes(out, 0, b"agent");
    let b = lines::append_field(out, a, slot);
    let c = append_words(out, b, agent, 12);
    text::append_byte(out, c, b'\n')
}

// The low digit of a number in hex, in small letters.
fn hex_digit(number: u8) -> u8 {
    let low = number % 16;
    if low < 10 {
        return b'0' + low;
    }
    b'a' + (low - 10)
}

// A byte in hex.
fn append_pair(out: &mut [u8], written: usize, byte: u8) -> usize
    requires { written + 2 ≤ length out.old }
    ensures { result ≡ written + 2 }
{
    let a = text::append_byte(out, written, hex_digit(byte / 16));
    text::append_byte(out, a, hex_digit(byte))
}

// The bytes in hex, two digits each.
pub fn append_hex(out: &mut [u8], written: usize, src: &[u8]) -> usize
    requires { written + 2 * length src.now ≤ length out.old }
    ensures { result ≤ written + 2 * length src.now }
{
    let mut reached = written;
    for byte in src {
        reached = append_pair(out, reached, *byte);
    }
    reached
}
