// A fresh store.
ghost use Rattle.std.specs.Prelude.{true, ◌≡◌, length};
ghost use Rattle.questions.specs.Verdicts.{verdict_of};
ghost use Rattle.store.specs.Layout.{store_length};
ghost use Rattle.store.specs.Questions.{numbers_right, create_refusal};
ghost use Rattle.store.specs.Created.{fresh_bytes, Created};

use crate::bytes::clear;
use questions::{Verdict, ask};
use store::head::{numbers_right, store_size};

// The bytes of a fresh store.
#[tactic(auto, using(crate::proofs::Fresh::fresh_written, store::proofs::Sound::numbers_mean))]
fn write_fresh(store: &mut [u8], parts: usize, cap: usize)
    requires { (numbers_right parts cap ≡ true) × (length store.old ≡ store_length parts cap) }
    ensures { store.new ≡ fresh_bytes parts cap }
{
    clear(store);
    store[0] = parts as u8;
    words::write16(store, 1, cap as u16);
}

// Questions 9 and 10, put to the numbers given and to the length of the buffer.
#[tactic(auto, using(store::proofs::Sound::numbers_mean), unfolding(store::specs::Questions::create_refusal, questions::specs::Questions::ask))]
fn check_buffer(bytes: usize, parts: usize, cap: usize) -> Verdict
    ensures { result ≡ verdict_of (create_refusal parts cap bytes) }
{
    ask(9, numbers_right(parts, cap))?;
    ask(10, bytes == store_size(parts, cap))
}

// Writes a fresh store of `parts` partitions and the book, of `cap` rows each. Refused, it leaves the bytes.
pub fn create(store: &mut [u8], parts: usize, cap: usize) -> Verdict
    ensures { Created store.old store.new parts cap result }
{
    check_buffer(store.len(), parts, cap)?;
    write_fresh(store, parts, cap);
    Ok(())
}
