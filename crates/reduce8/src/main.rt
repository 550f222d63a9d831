// The program `reduce8` (02, C-20): `reduce` with at most 8 rounds, as it was before.
#![tactic(auto)]

ghost use Rattle.std.specs.Prelude.{◌≡◌, OnOk};
ghost use Rattle.reduce_book.specs.Printed.{Printed};
ghost use Rattle.reduction.specs.declared.Form.TheVariants.{Report};

use reduce_book::program;
use reduction::Form;
use std::io;

const ROUNDS: u64 = 8;

fn main(rt: HostRuntime) {
    let mut printed = 0;
    // A failure is told on standard error already.
    let _ = print_reduced(&rt, &mut printed);
}

// Ok where the whole text was printed.
fn print_reduced(rt: &(impl io::Input + Print + Eprint), printed: &mut usize) -> io::Result<()>
    requires { printed.old ≡ 0 }
    ensures { OnOk result (Printed Report 8 printed.new) }
{
    program(rt, Form::Report, ROUNDS, printed)
}
