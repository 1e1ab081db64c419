// What is written of a case, a line or a piece of a line at a time, by a writer that the caller lends. A call fails where the writer does,
// and writes nothing behind that.
ghost use Rattle.std.specs.Prelude.{◌+◌, ◌*◌, ◌≤◌, ◌<◌, length};
ghost use Rattle.store.specs.Layout.{parts_of};
ghost use Rattle.store.specs.Sound.{Dimensions};

use crate::{case_lines, rows};
use agents::Answer;
use std::io;
use std::io::Write;

// The first `written` bytes of a line.
fn write_line<W: Write>(out: &mut W, line: &[u8], written: usize) -> io::Result<()>
    requires { written ≤ length line.now }
{
    out.write_all(&line[0..written])
}

// malformed case NUMBER
pub fn print_malformed<W: Write>(out: &mut W, number: u64) -> io::Result<()> {
    let mut line = [0u8; 48];
    let written = case_lines::malformed_line(&mut line, number);
    write_line(out, &line, written)
}

// answer ANSWER
pub fn print_answer<W: Write>(out: &mut W, answer: Answer) -> io::Result<()> {
    let mut line = [0u8; 97];
    let written = case_lines::answer_line(&mut line, answer);
    write_line(out, &line, written)
}

// answer figures TURNS R0 .. R7
pub fn print_figures<W: Write>(out: &mut W, figures: &[u8]) -> io::Result<()>
    requires { 36 ≤ length figures.now }
{
    let mut line = [0u8; 204];
    let written = case_lines::figures_line(&mut line, figures);
    write_line(out, &line, written)
}

// answer not yet: the log doesn't lead to a reply
pub fn print_not_yet<W: Write>(out: &mut W) -> io::Result<()> {
    out.write_all(b"answer not yet\n")
}

fn print_used<W: Write>(out: &mut W, partition: usize, count: usize) -> io::Result<()> {
    let mut line = [0u8; 64];
    let written = case_lines::used_line(&mut line, partition as u64, count as u64);
    write_line(out, &line, written)
}

fn print_row<W: Write>(out: &mut W, partition: usize, key: u64, value: u32) -> io::Result<()> {
    let mut line = [0u8; 88];
    let written = lines::row_line(&mut line, 0, partition as u64, key, value as u64);
    write_line(out, &line, written)
}

fn print_agent<W: Write>(out: &mut W, slot: usize, agent: &[u8]) -> io::Result<()>
    requires { 48 ≤ length agent.now }
{
    let mut line = [0u8; 300];
    let written = case_lines::agent_line(&mut line, slot as u64, agent);
    write_line(out, &line, written)
}

// The entries of a worklist, as many as its number says, and no more than its bytes hold.
pub fn print_list<W: Write>(out: &mut W, list: &[u8]) -> io::Result<()>
    requires { 132 ≤ length list.now }
{
    let entries = words::read32(list, 0) as usize;
    for entry in list[4..].chunks_exact(8).take(entries) {
        let mut line = [0u8; 48];
        let written = case_lines::list_line(&mut line, entry);
        write_line(out, &line, written)?;
    }
    Ok(())
}

// At most 512 bytes in hex.
fn print_piece<W: Write>(out: &mut W, src: &[u8]) -> io::Result<()>
    requires { length src.now ≤ 512 }
{
    let mut piece = [0u8; 1024];
    let written = case_lines::append_hex(&mut piece, 0, src);
    write_line(out, &piece, written)
}

// Bytes in hex, and `-` where there are none.
fn print_hex<W: Write>(out: &mut W, src: &[u8]) -> io::Result<()> {
    if src.is_empty() {
        return out.write_all(b"-");
    }
    for piece in src.chunks(512) {
        print_piece(out, piece)?;
    }
    Ok(())
}

// The parts that an opening answers with.
pub fn print_opened<W: Write>(out: &mut W, pack: &[u8], workflow: u32) -> io::Result<()> {
    out.write_all(b"ops ")?;
    print_hex(out, pack::operations(pack, workflow))?;
    out.write_all(b"\noperands ")?;
    print_hex(out, pack::operands(pack, workflow))?;
    out.write_all(b"\n")
}

// used PARTITION COUNT, of each partition, the book last
fn print_counts<W: Write>(out: &mut W, store: &[u8]) -> io::Result<()>
    requires { Dimensions store.now }
{
    for partition in 0..=store::head::partition_count(store) {
        print_used(out, partition, store::head::used_count(store, partition))?;
    }
    Ok(())
}

// The `used` rows with keys from byte `keys` on and values from byte `values` on, by rising stored key, then value.
fn print_partition<W: Write>(
    out: &mut W,
    store: &[u8],
    partition: usize,
    keys: usize,
    values: usize,
    used: usize,
) -> io::Result<()>
    requires { (keys + 8 * used ≤ length store.now) × (values + 4 * used ≤ length store.now) × (used ≤ 256) }
{
    let mut printed = [0u8; 256];
    for _ in 0..used {
        let Some(i) = rows::next_row(store, keys, values, &printed[..used]) else {
            return Ok(());
        };
        let (key, value) = rows::row(store, keys, values, i);
        print_row(out, partition, key, value)?;
        printed[i] = 1;
    }
    Ok(())
}

// The rows of a partition.
fn print_rows_of<W: Write>(out: &mut W, store: &[u8], partition: usize) -> io::Result<()>
    requires { Dimensions store.now × (partition ≤ parts_of store.now) }
{
    let used = rows::row_count(store, partition);
    let keys = store::head::key_place(store, partition, 0);
    let values = store::head::value_place(store, partition, 0);
    print_partition(out, store, partition, keys, values, used)
}

// The rows of all partitions, the book last.
fn print_rows<W: Write>(out: &mut W, store: &[u8]) -> io::Result<()>
    requires { Dimensions store.now }
{
    for partition in 0..=store::head::partition_count(store) {
        print_rows_of(out, store, partition)?;
    }
    Ok(())
}

// bytes HEX: the whole store as it is
pub fn print_bytes<W: Write>(out: &mut W, store: &[u8]) -> io::Result<()> {
    out.write_all(b"bytes ")?;
    print_hex(out, store)?;
    out.write_all(b"\n")
}

// A store: its used counts and rows if it passes questions 9 and 10, otherwise its bytes; and behind them all its bytes.
pub fn print_store<W: Write>(out: &mut W, store: &[u8]) -> io::Result<()> {
    if rows::is_laid(store) {
        print_counts(out, store)?;
        print_rows(out, store)?;
    } else {
        out.write_all(b"store ")?;
        print_hex(out, store)?;
        out.write_all(b"\n")?;
    }
    print_bytes(out, store)
}

// Is every byte zero?
fn is_zero(bytes: &[u8]) -> bool {
    bytes.iter().all(|byte| *byte == 0)
}

// The records of the slots that are not all zero.
pub fn print_slots<W: Write>(out: &mut W, records: &[u8]) -> io::Result<()>
    requires { 384 ≤ length records.now }
{
    for (slot, agent) in records[..384].chunks_exact(48).enumerate() {
        print_slot(out, slot, agent)?;
    }
    Ok(())
}

fn print_slot<W: Write>(out: &mut W, slot: usize, agent: &[u8]) -> io::Result<()>
    requires { 48 ≤ length agent.now }
{
    if is_zero(agent) {
        return Ok(());
    }
    print_agent(out, slot, agent)
}
