// Standard input, read whole however its bytes arrive.
ghost use Rattle.std.specs.Prelude.{◌≡◌, ◌≢◌, List, ℕ, IfOk, IfErr, Ok, Err, Some, pos, replicate};
ghost use Rattle.std.specs.IoError.{raw_os_error};
ghost use Rattle.intake.specs.Intake.{Held};
ghost use Rattle.streams.specs.Input.{InputHeld, ended_at};

use intake::{is_too_long, take_in};
use model::refusal::Refusal;
use std::io;
use std::io::Read;

// The number that the system gives a read of a descriptor that is not open.
const EBADF: i32 = 9;

const PIECE: usize = 65_536;

// The input ends where a read gives no byte. A closed standard input is an empty one. No signal is caught here, so no
// read is interrupted, and any other failure is one of the input.
fn ended(rt: &impl Eprint, got: io::Result<usize>, len: usize) -> io::Result<Result<usize, Refusal>>
    requires { IfOk got (λ count. count ≡ 0) }
    ensures whole { got ≡ Ok 0 → result ≡ ended_at len }
    ensures closed { IfErr got (λ error. raw_os_error error ≡ Some (pos 9) → result ≡ ended_at len) }
    ensures failed { IfErr got (λ error. raw_os_error error ≢ Some (pos 9) → result ≡ Err error) }
    ensures held { (bs start tail : List ℕ) → Held bs start tail len → InputHeld result start tail }
{
    match got {
        Ok(_) => Ok(Ok(len)),
        Err(error) => {
            if error.raw_os_error() == Some(EBADF) {
                return Ok(Ok(len));
            }
            let _ = eprintln!(rt; "standard input: {error}");
            Err(error)
        }
    }
}

// Reads to the end of the input, keeps what `intake` keeps of it, and answers its length. An input that check 2 refuses
// whatever follows is refused so, and no more of it is read.
pub fn read_all(
    rt: &(impl io::Input + Eprint),
    start: &mut [u8],
    tail: &mut [u8],
) -> io::Result<Result<usize, Refusal>>
    requires { tail.old ≡ replicate 16 0 }
    ensures { InputHeld result start.new tail.new }
{
    let mut reader = rt.reader();
    let mut piece = [0u8; PIECE];
    let mut len = 0;
    // How many pieces an input has no one knows beforehand.
    while !is_too_long(len) {
        let got = reader.read(&mut piece);
        let count = got.unwrap_or(0);
        if count == 0 {
            return ended(rt, got, len);
        }
        take_in(start, tail, len, &piece[..count]);
        len += count;
    }
    Ok(Err(Refusal::BookLength))
}
