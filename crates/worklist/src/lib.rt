// The worklist by value, sixteen places for entries: question 25, what the calls leave of the list, and the list in 132 lent bytes.
#![tactic(auto)]

ghost use Rattle.std.specs.Prelude.{true, ◌≡◌, ◌+◌, ◌-◌, ◌*◌, ◌≤◌, ◌<◌, length, take, position, ℕ};
ghost use Rattle.std.specs.List.{list_any};
ghost use Rattle.rules.specs.Worklist as Rules;
ghost use Rattle.worklist.specs.Worklist.{no_entry, no_worklist, worklist_of, Kept, found_id};
ghost use Rattle.worklist.specs.Worklist.{place_at, has_id, waits, waiting};
ghost use Rattle.worklist.specs.Bytes.{entry_in, list_in, with_entry, with_list};

use std::array;

// An entry: the id and its mark, 0 waiting, 1 taken.
// Stays so, a number for a kind: a lent list may have other marks, which come back as they were (`write_list`'s clause `read_back`).
#[derive(Clone, Copy, Debug, PartialEq, Eq)]
pub struct Entry {
    pub id: u32,
    pub mark: u32,
}

// A worklist by value: how many ids it has, and sixteen places for entries.
#[derive(Clone, Copy, Debug, PartialEq, Eq)]
pub struct Worklist {
    pub count: u32,
    pub places: [Entry; 16],
}

// What a take finds: the first waiting id, if there is one, and the list with that one marked.
#[derive(Clone, Copy, Debug, PartialEq, Eq)]
pub struct Took {
    pub id: Option<u32>,
    pub list: Worklist,
}

// A place that was never written is all zero.
fn no_entry() -> Entry
    ensures { result ≡ no_entry }
{
    Entry { id: 0, mark: 0 }
}

// The empty list, all zero.
pub fn no_worklist() -> Worklist
    ensures { result ≡ no_worklist }
{
    Worklist {
        count: 0,
        places: [no_entry(); 16],
    }
}

impl Worklist {
    // The entries: the places that are in use.
    fn entries(&self) -> &[Entry]
        requires { self.now.count ≤ 16 }
        ensures { result.now ≡ take self.now.count self.now.places }
    {
        &self.places[..self.count as usize]
    }
}

// Is this id among the entries?
fn lists(entries: &[Entry], id: u32) -> bool
    ensures { result ≡ list_any (has_id id) entries.now }
{
    entries.iter().any(|e| e.id == id)
}

// The place of this id, if it is listed.
fn place_of(entries: &[Entry], id: u32) -> Option<usize>
    ensures { result ≡ position (has_id id) entries.now }
{
    entries.iter().position(|e| e.id == id)
}

// The place of the first entry that is waiting, if one is.
fn first_waiting(entries: &[Entry]) -> Option<usize>
    ensures { result ≡ position waits entries.now }
{
    entries.iter().position(|e| e.mark == 0)
}

// Question 25. A list of more than sixteen ids is refused for its number alone.
pub fn is_right(l: Worklist) -> bool
    ensures { result ≡ Rules.list_right (worklist_of l) }
{
    if l.count > 16 {
        return false;
    }
    let entries = l.entries();
    for (i, e) in entries.iter().enumerate() {
        if e.mark > 1 || lists(&entries[i + 1..], e.id) {
            return false;
        }
    }
    true
}

// Is this id listed, waiting or taken?
pub fn is_listed(l: Worklist, id: u32) -> bool
    requires { Rules.list_right (worklist_of l) ≡ true }
    ensures { result ≡ Rules.listed id (worklist_of l) }
{
    lists(l.entries(), id)
}

// Question 26.
pub fn can_list(l: Worklist, id: u32) -> bool
    requires { Rules.list_right (worklist_of l) ≡ true }
    ensures { result ≡ Rules.can_list id (worklist_of l) }
{
    l.count < 16 || is_listed(l, id)
}

// Add: a new id goes to the end, waiting; a listed one changes nothing.
pub fn with_id(mut l: Worklist, id: u32) -> Worklist
    requires right { Rules.list_right (worklist_of l) ≡ true }
    requires can_list { Rules.can_list id (worklist_of l) ≡ true }
    ensures { Kept l result (Rules.added id (worklist_of l)) }
{
    if is_listed(l, id) {
        return l;
    }
    l.places[l.count as usize] = Entry { id, mark: 0 };
    l.count += 1;
    l
}

// Take: the first waiting id, marked as taken.
pub fn take_first(mut l: Worklist) -> Took
    requires { Rules.list_right (worklist_of l) ≡ true }
    ensures first { Rules.first_waiting (worklist_of l) ≡ found_id result }
    ensures kept { Kept l result.list (Rules.took_first (worklist_of l)) }
{
    let Some(place) = first_waiting(l.entries()) else {
        return Took { id: None, list: l };
    };
    let id = l.places[place].id;
    l.places[place].mark = 1;
    Took {
        id: Some(id),
        list: l,
    }
}

// Is this id listed as taken?
pub fn is_taken(l: Worklist, id: u32) -> bool
    requires { Rules.list_right (worklist_of l) ≡ true }
    ensures { result ≡ Rules.taken_on id (worklist_of l) }
{
    let entries = l.entries();
    match place_of(entries, id) {
        Some(place) => entries[place].mark == 1,
        None => false,
    }
}

// Done: an id is removed, and the later entries move up; the old last place stays as it was.
pub fn without_id(mut l: Worklist, id: u32) -> Worklist
    requires { Rules.list_right (worklist_of l) ≡ true }
    ensures { Kept l result (Rules.without id (worklist_of l)) }
{
    let Some(place) = place_of(l.entries(), id) else {
        return l;
    };
    let count = l.count as usize;
    l.places.copy_within(place + 1..count, place);
    l.count -= 1;
    l
}

// Each entry is waiting.
fn mark_waiting(entries: &mut [Entry])
    ensures { (k : ℕ) → k < length entries.old → place_at entries.new k ≡ waiting (place_at entries.old k) }
{
    for e in entries.iter_mut() {
        e.mark = 0;
    }
}

// Restart: all are waiting in a list that passes 25, and another list isn't touched.
pub fn restarted(l: Worklist) -> Worklist
    ensures { Kept l result (Rules.restarted (worklist_of l)) }
{
    if !is_right(l) {
        return l;
    }
    let mut places = l.places;
    mark_waiting(&mut places[..l.count as usize]);
    Worklist {
        count: l.count,
        places,
    }
}

// The entry at a place of the bytes.
fn read_entry(bytes: &[u8], place: usize) -> Entry
    requires { 12 + 8 * place ≤ length bytes.now }
    ensures { result ≡ entry_in bytes.now place }
{
    Entry {
        id: words::read32(bytes, 4 + 8 * place),
        mark: words::read32(bytes, 8 + 8 * place),
    }
}

// The worklist in the bytes.
pub fn read_list(bytes: &[u8]) -> Worklist
    requires { 132 ≤ length bytes.now }
    ensures { result ≡ list_in bytes.now }
{
    Worklist {
        count: words::read32(bytes, 0),
        places: array::from_fn(|place| read_entry(bytes, place)),
    }
}

// Writes an entry.
fn write_entry(bytes: &mut [u8], place: usize, e: Entry)
    requires { 12 + 8 * place ≤ length bytes.old }
    ensures { bytes.new ≡ with_entry bytes.old place e }
{
    words::write32(bytes, 4 + 8 * place, e.id);
    words::write32(bytes, 8 + 8 * place, e.mark);
}

// Writes a worklist, which is then read back as it was.
pub fn write_list(bytes: &mut [u8], l: Worklist)
    requires { 132 ≤ length bytes.old }
    ensures bytes_after { bytes.new ≡ with_list bytes.old l }
    ensures read_back { list_in bytes.new ≡ l }
{
    words::write32(bytes, 0, l.count);
    for (place, e) in l.places.iter().enumerate() {
        write_entry(bytes, place, *e);
    }
}
