// The parts of the case that bytes begin with: kind (1), two lengths (4 each), the pack, the store or the schedule. A call has
// behind them eight agent records of twelve words, a call byte and seven words. With a worklist there are the number of its entries (1)
// behind the lengths, and the entries behind the store, id (4) and mark (1) each. A list of calls has a worklist, and behind the records
// how many calls there are (1), and for each its call byte and seven words.
ghost use Rattle.std.specs.Prelude.{true, IfSome, ◌≡◌, ◌+◌, ◌≤◌, ◌<◌, length};
ghost use Rattle.cases.specs.Parts.{pack_end, parts_end, call_end, HasParts, HasCall};

// Where the pack ends; it begins at 9.
pub fn pack_end(c: &[u8]) -> usize
    requires { 9 ≤ length c.now }
    ensures { (result ≡ pack_end c.now) × (result < 4294967305) }
{
    9 + words::read32(c, 1) as usize
}

// Where the store or the schedule ends; it begins where the pack ends.
pub fn parts_end(c: &[u8]) -> usize
    requires { 9 ≤ length c.now }
    ensures { (result ≡ parts_end c.now) × (result < 8589934601) }
{
    pack_end(c) + words::read32(c, 5) as usize
}

// Are kind, lengths and both parts there?
pub fn has_parts(c: &[u8]) -> bool
    ensures { result ≡ true → HasParts c.now }
{
    9 <= c.len() && parts_end(c) <= c.len()
}

// Is a byte that of a call without a worklist, 0 to 9 or 15?
fn is_call(byte: u8) -> bool {
    matches!(byte, 0..=9 | 15)
}

// Is it that of one of the ten calls on a store, 3 to 7 and 9 to 13? Check, open, create, figures and reply, which are 0 to 2, 8 and 15,
// are no such calls; 14 is none at all.
fn is_on_store(byte: u8) -> bool {
    matches!(byte, 3..=7 | 9..=13)
}

// Is the rest of a call there, and its call byte in range? The records' words may be any: some make no record, which 14 is asked about.
pub fn has_call(c: &[u8]) -> bool
    requires { HasParts c.now }
    ensures { result ≡ true → HasCall c.now }
{
    let records_at = parts_end(c);
    413 <= c.len() - records_at && is_call(c[records_at + 384])
}

// Where a call ends.
pub fn call_end(c: &[u8]) -> usize
    requires { HasCall c.now }
    ensures { HasCall c.now × (result ≡ call_end c.now) × (result ≤ length c.now) }
{
    parts_end(c) + 413
}

// The seven words of a call, behind its call byte.
pub fn call_words(c: &[u8]) -> [u32; 7]
    requires { HasCall c.now }
{
    words_at(c, parts_end(c) + 385)
}

// Is each call byte, the first of 29, that of a call on a store?
fn calls_right(calls: &[u8]) -> bool {
    calls.chunks(29).all(|call| is_on_store(call[0]))
}

// How many bytes the records and calls of a list have that stand behind its store; none if they are not there or a call byte is out of
// range.
pub fn list_bytes(rest: &[u8]) -> Option<usize>
    ensures { IfSome result (λ bytes. (385 ≤ bytes) × (bytes ≤ length rest.now)) }
{
    let bytes = 385 + 29 * usize::from(*rest.get(384)?);
    if bytes <= rest.len() && calls_right(&rest[385..bytes]) {
        return Some(bytes);
    }
    None
}

// How many bytes the records and the one call have that stand behind a worklist, 413; none if they are not there or the call byte is out
// of range.
pub fn call_bytes(rest: &[u8]) -> Option<usize>
    ensures { IfSome result (λ bytes. (413 ≤ bytes) × (bytes ≤ length rest.now)) }
{
    if 413 <= rest.len() && matches!(rest[384], 0..=13 | 15) {
        return Some(413);
    }
    None
}

// The worklist in the layout that the library reads, made of the entries of a case, 5 bytes each.
pub fn lend_list(list: &mut [u8], entries: &[u8])
    requires { length list.old ≡ 2044 }
{
    let count = entries.len() / 5;
    if 255 < count {
        return;
    }
    words::write32(list, 0, count as u32);
    for (lent, entry) in list[4..].chunks_exact_mut(8).zip(entries.chunks_exact(5)) {
        words::write32(lent, 0, words::read32(entry, 0));
        words::write32(lent, 4, u32::from(entry[4]));
    }
}

// Seven words from byte `first` on.
pub fn words_at(c: &[u8], first: usize) -> [u32; 7]
    requires { first + 28 ≤ length c.now }
{
    [
        words::read32(c, first),
        words::read32(c, first + 4),
        words::read32(c, first + 8),
        words::read32(c, first + 12),
        words::read32(c, first + 16),
        words::read32(c, first + 20),
        words::read32(c, first + 24),
    ]
}
