// The pieces of an input, in the order in which they come.
ghost use Rattle.std.specs.Prelude.{◌≡◌, List, ◌++◌, ℕ, ◌+◌, ◌≤◌, length};
ghost use Rattle.std.proofs.Math.Seq.{paste};
ghost use Rattle.intake.specs.Intake.{Held, shifted};

// Stores the piece at place `at`.
fn store(start: &mut [u8], at: usize, piece: &[u8])
    requires { at + length piece.now ≤ length start.old }
    ensures { let bs = piece.now in
        start.new ≡ paste start.old at bs (length bs) }
{
    start[at..at + piece.len()].copy_from_slice(piece);
}

// Shifts the piece in at the end of `tail`, and as many bytes out at its start.
fn shift_in(tail: &mut [u8], piece: &[u8])
    ensures { tail.new ≡ shifted tail.old piece.now }
{
    for i in 0..tail.len() {
        let left = tail.len() - i;
        if piece.len() < left {
            tail[i] = tail[i + piece.len()];
        } else {
            tail[i] = piece[piece.len() - left];
        }
    }
}

// Takes in the next piece of an input of which `len` bytes are held. Where `start` has no room left for it, the input
// is longer than `start`, and only its last bytes and its length count.
pub fn take_in(start: &mut [u8], tail: &mut [u8], len: usize, piece: &[u8])
    ensures { let more = piece.now in
        ((bs : List ℕ) → Held bs start.old tail.old len →
        Held (bs ++ more) start.new tail.new (len + length more)) }
{
    shift_in(tail, piece);
    if len <= start.len() {
        if piece.len() <= start.len() - len {
            store(start, len, piece);
        }
    }
}
