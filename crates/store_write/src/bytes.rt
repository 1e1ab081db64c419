// Bytes made zero, and bytes copied.
ghost use Rattle.std.specs.Prelude.{◌≡◌, ◌+◌, ◌≤◌, length, replicate};
ghost use Rattle.std.proofs.lemmas.List.Edits.{sets};
ghost use Rattle.store.specs.Parts.{piece};

// Makes every byte zero.
pub fn clear(bytes: &mut [u8])
    ensures { bytes.new ≡ replicate (length bytes.old) 0 }
{
    bytes.fill(0);
}

// Copies `count` bytes of `from`, from byte `from_at` on, to byte `to_at` of `to` and on.
pub(crate) fn copy_bytes(to: &mut [u8], to_at: usize, from: &[u8], from_at: usize, count: usize)
    requires { (to_at + count ≤ length to.old) × (from_at + count ≤ length from.now) }
    ensures { to.new ≡ sets to.old to_at (piece count from_at from.now) }
{
    to[to_at..to_at + count].copy_from_slice(&from[from_at..from_at + count]);
}
