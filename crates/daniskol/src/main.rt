// Answers the request on standard input.
#![tactic(auto)]

ghost use Rattle.std.specs.Prelude.{◌≤◌, length, take, OnOk, IfSome};
ghost use Rattle.std.specs.Io.KnownBytes.{Appends};
ghost use Rattle.form.specs.Show.{reply};
ghost use Rattle.form.proofs.Room.{most_text};

use answering::TEXT_SIZE;
use std::io;
use std::io::{Read, Write};

// Reads a request, at most as many bytes as the first memory has, and writes its reply by way of the second.
fn respond<R: Read, W: Write>(
    input: &mut R,
    output: &mut W,
    request: &mut [u8],
    text: &mut [u8],
) -> io::Result<()>
    requires { most_text ≤ length text.old }
    ensures { OnOk result (IfSome (R.remaining input.old) (λ xs. Appends (W.contents output.old) (W.contents output.new) (reply (take (length request.old) xs)))) }
{
    let read = intake::read_full(input, request)?;
    let n = answering::answer(&request[..read], text);
    output.write_all(&text[..n])
}

// One byte more than a request may have is read, so that a longer one is refused.
fn main(rt: HostRuntime) -> io::Result<()> {
    let mut request = [0u8; 65537];
    let mut text = [0u8; TEXT_SIZE];
    respond(&mut rt.stdin(), &mut rt.stdout(), &mut request, &mut text)
}
