// The schedule program: runs the schedule of the current folder's pack.bin and schedule.bin, and prints its answers and what is left in
// the store, or only `refused N`.
#![tactic(auto)]

ghost use Rattle.std.specs.Prelude.{◌≡◌, length};
ghost use Rattle.std.specs.Io.{ReadsAtMost};

use schedule::input::{read_full, zeros};
use std::fs::File;
use std::io;
use std::io::Write;
use std::rt::Files;

// Reads a file's first bytes, as many as `buf` has, and answers how many there were. A missing file counts as empty.
fn read_file<R: Files>(files: &R, path: &str, buf: &mut [u8]) -> io::Result<usize>
    ensures read { ReadsAtMost result buf.new }
    ensures kept { length buf.new ≡ length buf.old }
{
    match File::open(files, path) {
        Ok(mut file) => read_full(&mut file, buf),
        Err(_) => Ok(0),
    }
}

fn main(rt: HostRuntime) -> io::Result<()> {
    // One byte more than the longest pack, 1 + 2 × 16 + 5 × 2,048, so that the check sees the length of a longer file.
    let mut pack = zeros::<10_274>();
    // One byte more than the longest schedule, 6 + 24 × 64 + 2 × 1,024.
    let mut schedule = zeros::<3_591>();
    let mut store = zeros::<27_669>();
    let mut text = zeros::<524_288>();
    let p = read_file(&rt, "pack.bin", &mut pack)?;
    let s = read_file(&rt, "schedule.bin", &mut schedule)?;
    let n = schedule::run::run(&pack[..p], &schedule[..s], &mut store, &mut text);
    io::writer(&rt).write_all(&text[..n])
}
