// Standard output. `printed` counts the bytes that were written: so a contract can say that a text is printed once, and
// whole. A write that fails is told on standard error.
ghost use Rattle.std.specs.Prelude.{◌≡◌, ◌+◌, ◌<◌, OnOk, length};
ghost use Rattle.report.specs.Report.{refused_line};

use report_line::write_refused;
use std::io;

// Ok where the whole text was written.
pub fn print(rt: &(impl Print + Eprint), text: &[u8], printed: &mut usize) -> io::Result<()>
    requires { printed.old + length text.now < 18_446_744_073_709_551_616 }
    ensures { OnOk result (printed.new ≡ printed.old + length text.now) }
{
    match rt.write_all(text) {
        Ok(()) => {
            *printed += text.len();
            Ok(())
        }
        Err(error) => {
            let _ = eprintln!(rt; "standard output: {error}");
            Err(error)
        }
    }
}

// Prints the line `refused N`.
pub fn refused(rt: &(impl Print + Eprint), number: u32, printed: &mut usize) -> io::Result<()>
    requires { printed.old ≡ 0 }
    ensures { OnOk result (printed.new ≡ length (refused_line number)) }
{
    let mut buf = [0u8; 64];
    let end = write_refused(number, &mut buf, 0);
    print(rt, &buf[..end], printed)
}
