// From a book to an answer, in memory: the text of the answer, in either form, is `output_as` of the book. `buffers` has
// the buffers of the largest book.
#![tactic(auto)]

pub mod buffers;

ghost use Rattle.std.specs.Prelude.{◌≡◌};
ghost use Rattle.model.specs.Rows.{rows_of};
ghost use Rattle.model.specs.State.{State, state_of};
ghost use Rattle.rounds.specs.Answers.{rounds_answer};
ghost use Rattle.reduction.specs.Answers.{Leaves, Ready, answer_text};
ghost use Rattle.reduction.specs.Meaning.{OutputMeans};
ghost use Rattle.reduction.specs.declared.Form.{Form};
ghost use Rattle.reduction.specs.Output.{output_as, text_of};

use book_reading::read;
use model::refusal::Refusal;
use rounds::RoundsMade;

// What is printed of the model that is left: 01's report, or (02, C-23) its pages.
#[derive(Clone, Copy)]
pub enum Form {
    Report,
    Paper,
}

// After so many rounds a model is left, or none at None.
fn answer_of(rounds: Result<RoundsMade, Refusal>) -> Result<Option<u64>, Refusal>
    ensures { (form : Form) (s : State) → answer_text form result s ≡ text_of form (rounds_answer rounds) s }
{
    match rounds? {
        RoundsMade::Infeasible(_, _) => Ok(None),
        RoundsMade::NothingChanged(made, _) => Ok(Some(made)),
        RoundsMade::AtLimit(made, _) => Ok(Some(made)),
    }
}

// Reads the book into the lent buffers and makes at most `limit` rounds there: how many left a model there, or none at
// None, or refused by the first check that fails. `meaning`: what the text means for the book's points; `valid`: the model and the table that are left pass their checks.
pub fn solve(
    n: usize,
    m: usize,
    book: &[u8],
    bounds: &mut [i32],
    coefs: &mut [i32],
    rhs: &mut [i32],
    kinds: &mut [u8],
    table: &mut [u8],
    limit: u64,
) -> Result<Option<u64>, Refusal>
    requires { let s = state_of n m bounds.old (rows_of coefs.old rhs.old kinds.old) table.old in
        Ready book.now s }
    ensures text { let A = rows_of coefs.new rhs.new kinds.new in
        let left = state_of n m bounds.new A table.new in
        ((form : Form) → answer_text form result left ≡ output_as form limit book.now) }
    ensures meaning { (form : Form) → OutputMeans form limit book.now }
    ensures valid { let A = rows_of coefs.new rhs.new kinds.new in
        let left = state_of n m bounds.new A table.new in
        Leaves result left }
{
    match read(book, bounds, coefs, rhs, kinds) {
        Err(refusal) => Err(refusal),
        Ok(_) => answer_of(rounds_call::run(n, m, bounds, coefs, rhs, kinds, table, limit)),
    }
}
