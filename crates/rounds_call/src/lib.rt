// The rounds of `reduce`, open to others: any n and m, any buffers with any contents. The model and the table are
// checked once; each call leaves them valid.
#![tactic(auto)]

ghost use Rattle.std.specs.Prelude.{◌≡◌};
ghost use Rattle.semantics.specs.Run.{run as ran};
ghost use Rattle.model.specs.Rows.{rows_of};
ghost use Rattle.model.specs.State.{state_of};
ghost use Rattle.rounds.specs.Answers.{rounds_answer};
ghost use Rattle.rounds.specs.NoLimit.{NotReached};
ghost use Rattle.rounds.specs.Rest.{EndsAtRest};
ghost use Rattle.rounds.specs.Rounds.{SamePoints, run_rounds};

use model::refusal::Refusal;
use model_checks::check_model_with_table;
use rounds::RoundsMade;
use rounds_loop::make_rounds;

// The limit that is none: it is never reached, since every model's rounds end below it (`unreached`).
pub const NO_LIMIT: u64 = 18_446_744_073_709_551_615;

// Makes rounds until one changes nothing, the box is empty or `limit` rounds are made. Refused by the model's
// checks and 10; the table is kept and extended. Where the last round changed nothing and no side in it was spent, the
// model is at rest (`rest`).
pub fn run(
    n: usize,
    m: usize,
    bounds: &mut [i32],
    coefs: &mut [i32],
    rhs: &mut [i32],
    kinds: &mut [u8],
    table: &mut [u8],
    limit: u64,
) -> Result<RoundsMade, Refusal>
    ensures answer { let A = rows_of coefs.old rhs.old kinds.old in
        let s = state_of n m bounds.old A table.old in
        rounds_answer result ≡ (run_rounds limit s).answer }
    ensures left { let A = rows_of coefs.old rhs.old kinds.old in
        let A' = rows_of coefs.new rhs.new kinds.new in
        let s = state_of n m bounds.old A table.old in
        let r' = state_of n m bounds.new A' table.new in
        r' ≡ ran s (run_rounds limit s).calls }
    ensures meaning { let A = rows_of coefs.old rhs.old kinds.old in
        let A' = rows_of coefs.new rhs.new kinds.new in
        let s = state_of n m bounds.old A table.old in
        let r' = state_of n m bounds.new A' table.new in
        SamePoints s r' (rounds_answer result) }
    ensures unreached { NotReached limit (rounds_answer result) }
    ensures rest { let A' = rows_of coefs.new rhs.new kinds.new in
        let r' = state_of n m bounds.new A' table.new in
        EndsAtRest r' (rounds_answer result) }
{
    check_model_with_table(n, m, bounds, coefs, rhs, kinds, table, true)?;
    Ok(make_rounds(n, m, bounds, coefs, rhs, kinds, table, limit))
}
