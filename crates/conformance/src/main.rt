// Reads cases from `cases.bin` in the current folder, at most 1 MiB, and prints what each comes to. A missing file has no cases.
#![tactic(auto)]

ghost use Rattle.std.specs.Prelude.{◌≡◌, ◌≤◌, ◌<◌, length, IfOk, IfSome};

use cases::input::{read_full, zeros};
use std::fs::File;
use std::io;
use std::io::Write;

// The case that `c` begins with, behind `case NUMBER`. The answer is how many bytes it has; there is none for a malformed one.
fn print_numbered<W: Write>(
    out: &mut W,
    c: &[u8],
    number: u64,
    buffer: &mut [u8],
) -> io::Result<Option<usize>>
    requires { length c.now ≤ length buffer.old }
    ensures size { IfOk result (λ case. IfSome case (λ size. (0 < size) × (size ≤ length c.now))) }
    ensures kept { length buffer.new ≡ length buffer.old }
{
    let mut line = [0u8; 32];
    let written = case_print::case_lines::case_line(&mut line, number);
    let size = cases::run::print_case(out, c, &line[..written], true, buffer)?;
    if size.is_none() {
        case_print::print::print_malformed(out, number)?;
    }
    Ok(size)
}

// All cases of a file.
fn print_cases<W: Write>(out: &mut W, file: &[u8], buffer: &mut [u8]) -> io::Result<()>
    requires { length file.now ≤ length buffer.old }
{
    let mut passed = 0;
    let mut number: u64 = 0;
    while passed < file.len() {
        let Some(bytes) = print_numbered(out, &file[passed..], number, buffer)? else {
            return Ok(());
        };
        passed += bytes;
        number += 1;
    }
    Ok(())
}

fn main(rt: HostRuntime) -> io::Result<()> {
    let Ok(mut input) = File::open(&rt, "cases.bin") else {
        return Ok(());
    };
    let mut file = zeros::<1_048_576>();
    let read = read_full(&mut input, &mut file)?;
    // Room for the store of a case.
    let mut buffer = zeros::<1_048_576>();
    print_cases(&mut io::writer(&rt), &file[..read], &mut buffer)
}
