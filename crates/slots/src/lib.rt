// The eight agent records in 384 lent bytes, read and written. A record is twelve words of 4 bytes, low byte first: in use (0 or
// 1), id, position, step number, eight registers.
#![tactic(auto)]

ghost use Rattle.std.specs.Prelude.{◌≡◌, ◌+◌, ◌*◌, ◌≤◌, length};
ghost use Rattle.words.specs.Words.{fields};
ghost use Rattle.slots.specs.Records.{no_record, record_in, slots_in, puts, with_record, with_slots};

use agents::Agent;

// What bytes that are no record stand for: not in use, and not all zero.
fn no_record() -> Agent
    ensures { result ≡ no_record }
{
    Agent {
        in_use: false,
        id: 1,
        position: 0,
        step: 0,
        registers: [0u32; 8],
    }
}

// The eight words from byte `first` on.
fn read_registers(bytes: &[u8], first: usize) -> [u32; 8]
    requires { first + 32 ≤ length bytes.now }
    ensures { result ≡ fields 4 bytes.now first 8 }
{
    [
        words::read32(bytes, first),
        words::read32(bytes, first + 4),
        words::read32(bytes, first + 8),
        words::read32(bytes, first + 12),
        words::read32(bytes, first + 16),
        words::read32(bytes, first + 20),
        words::read32(bytes, first + 24),
        words::read32(bytes, first + 28),
    ]
}

// The record of a slot.
fn read_record(bytes: &[u8], slot: usize) -> Agent
    requires { 48 * slot + 48 ≤ length bytes.now }
    ensures { result ≡ record_in bytes.now slot }
{
    let first = 48 * slot;
    let in_use = words::read32(bytes, first);
    let position = words::read32(bytes, first + 8);
    let step = words::read32(bytes, first + 12);
    if in_use >= 2 {
        return no_record();
    }
    if position >= 65_536 {
        return no_record();
    }
    if step >= 65_536 {
        return no_record();
    }
    Agent {
        in_use: in_use == 1,
        id: words::read32(bytes, first + 4),
        position: position as u16,
        step: step as u16,
        registers: read_registers(bytes, first + 16),
    }
}

// The eight records.
pub fn read_slots(bytes: &[u8]) -> [Agent; 8]
    requires { length bytes.now ≡ 384 }
    ensures { result ≡ slots_in bytes.now }
{
    [
        read_record(bytes, 0),
        read_record(bytes, 1),
        read_record(bytes, 2),
        read_record(bytes, 3),
        read_record(bytes, 4),
        read_record(bytes, 5),
        read_record(bytes, 6),
        read_record(bytes, 7),
    ]
}

// Writes eight words from byte `first` on.
pub fn write_eight(bytes: &mut [u8], first: usize, eight: [u32; 8])
    requires { first + 32 ≤ length bytes.old }
    ensures { bytes.new ≡ puts 4 bytes.old first eight 8 }
{
    for (i, word) in eight.iter().enumerate() {
        words::write32(bytes, first + i * 4, *word);
    }
}

// Writes the record of a slot.
fn write_record(bytes: &mut [u8], slot: usize, agent: Agent)
    requires { 48 * slot + 48 ≤ length bytes.old }
    ensures { bytes.new ≡ with_record bytes.old slot agent }
{
    let first = 48 * slot;
    let registers = agent.registers;
    words::write32(bytes, first, agent.in_use as u32);
    words::write32(bytes, first + 4, agent.id);
    words::write32(bytes, first + 8, agent.position as u32);
    words::write32(bytes, first + 12, agent.step as u32);
    write_eight(bytes, first + 16, registers);
}

// Writes eight records, which are then read back as they were.
pub fn write_slots(bytes: &mut [u8], slots: [Agent; 8])
    requires { length bytes.old ≡ 384 }
    ensures bytes_after { bytes.new ≡ with_slots bytes.old slots }
    ensures read_back { slots_in bytes.new ≡ slots }
{
    for (slot, agent) in slots.iter().enumerate() {
        write_record(bytes, slot, *agent);
    }
}
