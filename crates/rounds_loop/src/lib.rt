// The rounds of `reduce` on a valid model and table, which each call leaves valid: rounds are made until one changes
// nothing.
#![tactic(auto)]

ghost use Rattle.std.specs.Prelude.{false, ◌≡◌};
ghost use Rattle.semantics.specs.Run.{run as ran};
ghost use Rattle.model.specs.Rows.{rows_of};
ghost use Rattle.model.specs.State.{state_of};
ghost use Rattle.model.specs.Valid.{ValidState};
ghost use Rattle.rounds.specs.Answers.{rounds_answer};
ghost use Rattle.rounds.specs.Rounds.{ended, rounds_from};

use round::round;
use rounds::RoundsMade;

// Makes rounds until one changes nothing, the box is empty or `limit` rounds are made.
pub fn make_rounds(
    n: usize,
    m: usize,
    bounds: &mut [i32],
    coefs: &mut [i32],
    rhs: &mut [i32],
    kinds: &mut [u8],
    table: &mut [u8],
    limit: u64,
) -> RoundsMade
    requires { ValidState (state_of n m bounds.old (rows_of coefs.old rhs.old kinds.old) table.old) }
    ensures answer { let A = rows_of coefs.old rhs.old kinds.old in
        let s = state_of n m bounds.old A table.old in
        let all = rounds_from limit 0 false s in
        rounds_answer (Ok result) ≡ ended all.ending all.rounds all.spent }
    ensures left { let A = rows_of coefs.old rhs.old kinds.old in
        let A' = rows_of coefs.new rhs.new kinds.new in
        let s = state_of n m bounds.old A table.old in
        let r' = state_of n m bounds.new A' table.new in
        r' ≡ ran s (rounds_from limit 0 false s).calls }
{
    let mut spent = false;
    for before in 0..limit {
        let made = before + 1;
        let last = round(n, m, bounds, coefs, rhs, kinds, table);
        spent = last.spent;
        if boxes::is_empty(bounds) {
            return RoundsMade::Infeasible(made, spent);
        }
        if !last.changed {
            return RoundsMade::NothingChanged(made, spent);
        }
    }
    RoundsMade::AtLimit(limit, spent)
}
