// The open call.
ghost use Rattle.std.specs.Prelude.{◌≡◌, ℕ};
ghost use Rattle.model.specs.Checks.{first};
ghost use Rattle.model.specs.Refusals.{fault_of};
ghost use Rattle.cliques.specs.CliqueCall.{clique_checks, perform_cliques, written};
ghost use Rattle.cliques.specs.CliqueClaims.{CliquesMean};
ghost use Rattle.clique_call.specs.CliqueAnswers.{cliques_answer, performed_cliques};

use crate::listing::write_cliques;
use buffer_checks::{is_bits, is_product};
use model::refusal::Refusal;
use model_checks::check_size;

// Checks 3, 5 and 10: the first that fails refuses.
fn check_cliques(n: usize, table: &[u8], coefs: &[i32], rhs: &[i32]) -> Result<(), Refusal>
    ensures { fault_of result ≡ first (clique_checks n table.now coefs.now rhs.now) }
{
    check_size(n, 0)?;
    if !is_product(table.len(), 4, n * n) {
        return Err(Refusal::BufferLength);
    }
    if !is_product(coefs.len(), 2 * n, n) {
        return Err(Refusal::BufferLength);
    }
    if rhs.len() != 2 * n {
        return Err(Refusal::BufferLength);
    }
    if !is_bits(table) {
        return Err(Refusal::TableByte);
    }
    Ok(())
}

// Writes the clique rows of the table into a list of 2n rows, `coefs` and `rhs`, and zeros after them: so many rows. Refused by 3, 5
// and 10; then nothing is written. `meaning`: for a table that calls on a model filled from empty, ties among them,
// every integer point of the model meets each row; for any table each row is that of a clique to which no literal
// could be added.
pub fn cliques(n: usize, table: &[u8], coefs: &mut [i32], rhs: &mut [i32]) -> Result<usize, Refusal>
    ensures defined { let performed = performed_cliques result coefs.new rhs.new in
        performed ≡ perform_cliques n table.now coefs.old rhs.old }
    ensures meaning { (k : ℕ) → cliques_answer result ≡ written k
        → CliquesMean n table.now k coefs.new rhs.new }
{
    check_cliques(n, table, coefs, rhs)?;
    Ok(write_cliques(n, table, coefs, rhs))
}
