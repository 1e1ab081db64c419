// Reads edges from standard input, at most 512 KiB, and prints each one's words and its answer. An edge is the length of its words
// (1 byte), the words, and a case in the form that `cases` has. `edges.py` has them in readable form, each with its answer.
#![tactic(auto)]

ghost use Rattle.std.specs.Prelude.{◌≡◌, ◌≤◌, ◌<◌, length, IfOk, IfSome};

use cases::input::{read_full, zeros};
use std::io;
use std::io::Write;

// The edge that `edges` begin with. The answer is how many bytes it has; there is none for a malformed one.
fn print_edge<W: Write>(out: &mut W, edges: &[u8], buffer: &mut [u8]) -> io::Result<Option<usize>>
    requires { length edges.now ≤ length buffer.old }
    ensures size { IfOk result (λ edge. IfSome edge (λ size. (0 < size) × (size ≤ length edges.now))) }
    ensures kept { length buffer.new ≡ length buffer.old }
{
    if edges.is_empty() {
        return Ok(None);
    }
    let words_end = 1 + usize::from(edges[0]);
    if edges.len() < words_end {
        return Ok(None);
    }
    let case = &edges[words_end..];
    let Some(bytes) = cases::run::print_case(out, case, &edges[1..words_end], false, buffer)? else {
        return Ok(None);
    };
    Ok(Some(words_end + bytes))
}

// All edges.
fn print_edges<W: Write>(out: &mut W, edges: &[u8], buffer: &mut [u8]) -> io::Result<()>
    requires { length edges.now ≤ length buffer.old }
{
    let mut passed = 0;
    while passed < edges.len() {
        let Some(bytes) = print_edge(out, &edges[passed..], buffer)? else {
            return Ok(());
        };
        passed += bytes;
    }
    Ok(())
}

fn main(rt: HostRuntime) -> io::Result<()> {
    let mut edges = zeros::<524_288>();
    let read = read_full(&mut rt.stdin(), &mut edges)?;
    // Room for the store of an edge.
    let mut buffer = zeros::<524_288>();
    print_edges(&mut io::writer(&rt), &edges[..read], &mut buffer)
}
