// Copies elements into a slice, starting at an index.
ghost use Rattle.std.specs.Prelude.{◌≡◌, ◌+◌, ◌≤◌, length};
ghost use Rattle.std.proofs.lemmas.List.Edits.{sets};

#[tactic(auto, using(crate::proofs::stores::Storing::store_none, crate::proofs::stores::Storing::store_more, crate::proofs::stores::Storing::store_done))]
pub fn store<T: Copy>(to: &mut [T], at: usize, from: &[T])
    requires { at + length from.now ≤ length to.old }
    ensures { to.new ≡ sets to.old at from.now }
{
    for (i, x) in from.iter().enumerate() {
        to[at + i] = *x;
    }
}

// Each byte fills one cell.
#[tactic(auto, using(crate::proofs::stores::Storing::store_none, crate::proofs::stores::Storing::store_more, crate::proofs::stores::Storing::store_done))]
pub fn store_bytes(cells: &mut [u32], at: usize, bytes: &[u8])
    requires { at + length bytes.now ≤ length cells.old }
    ensures { cells.new ≡ sets cells.old at bytes.now }
{
    for (i, byte) in bytes.iter().enumerate() {
        cells[at + i] = u32::from(*byte);
    }
}
