// The lengths of the buffers that n and m fix, from the trailer alone (02, C-17).
#![tactic(auto)]

ghost use Rattle.std.specs.Prelude.{◌≡◌, ◌≤◌};
ghost use Rattle.plan.specs.Answers.{lengths_answer, lengths_call};
ghost use Rattle.plan.specs.Lengths.{lengths_for, lengths_of};
ghost use Rattle.model.specs.Limits.{max_rows, max_variables};

use book::trailer;
use model::refusal::Refusal;
use plan::BufferLengths;

// The bytes of a book's trailer.
const TRAILER: usize = 16;

fn lengths_for(n: usize, m: usize) -> BufferLengths
    requires { (n ≤ max_variables) × (m ≤ max_rows) }
    ensures { lengths_of result ≡ lengths_for n m }
{
    let coefs = m * n;
    BufferLengths {
        n,
        m,
        bounds: 2 * n,
        coefs,
        rhs: m,
        kinds: m,
        table: 4 * (n * n),
        ties: n,
        clique_coefs: 2 * n * n,
        clique_rhs: 2 * n,
        book: 8 * n + 4 * m + 4 * coefs + TRAILER,
    }
}

// The lengths, from the 16 trailer bytes alone. Refused by 1, more than 16 bytes by 5, then 3 and 4.
pub fn lengths(bytes: &[u8]) -> Result<BufferLengths, Refusal>
    ensures { lengths_answer result ≡ lengths_call bytes.now }
{
    let sizes = trailer(bytes)?;
    Ok(lengths_for(sizes.n, sizes.m))
}
