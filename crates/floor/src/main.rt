// The program `floor` (02, C-23): a book on standard input, rounds until one changes nothing, or None, and the pages of
// what is left of the model.
#![tactic(auto)]

ghost use Rattle.std.specs.Prelude.{◌≡◌, OnOk};
ghost use Rattle.reduce_book.specs.Printed.{Printed};
ghost use Rattle.reduction.specs.declared.Form.TheVariants.{Paper};
ghost use Rattle.rounds.specs.NoLimit.{no_limit};

use reduce_book::program;
use reduction::Form;
use rounds_call::NO_LIMIT;
use std::io;

fn main(rt: HostRuntime) {
    let mut printed = 0;
    // A failure is told on standard error already.
    let _ = print_pages(&rt, &mut printed);
}

// Ok where the whole text was printed.
fn print_pages(rt: &(impl io::Input + Print + Eprint), printed: &mut usize) -> io::Result<()>
    requires { printed.old ≡ 0 }
    ensures { OnOk result (Printed Paper no_limit printed.new) }
{
    program(rt, Form::Paper, NO_LIMIT, printed)
}
