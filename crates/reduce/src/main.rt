// The program `reduce` (01, "Book"; 02, C-20): a book on standard input, rounds until one changes nothing, or None, and
// what is left of the model.
#![tactic(auto)]

ghost use Rattle.std.specs.Prelude.{◌≡◌, OnOk};
ghost use Rattle.reduce_book.specs.Printed.{Printed};
ghost use Rattle.reduction.specs.declared.Form.TheVariants.{Report};
ghost use Rattle.rounds.specs.NoLimit.{no_limit};

use reduce_book::program;
use reduction::Form;
use rounds_call::NO_LIMIT;
use std::io;

fn main(rt: HostRuntime) {
    let mut printed = 0;
    // A failure is told on standard error already.
    let _ = print_reduced(&rt, &mut printed);
}

// Ok where the whole text was printed.
fn print_reduced(rt: &(impl io::Input + Print + Eprint), printed: &mut usize) -> io::Result<()>
    requires { printed.old ≡ 0 }
    ensures { OnOk result (Printed Report no_limit printed.new) }
{
    program(rt, Form::Report, NO_LIMIT, printed)
}
