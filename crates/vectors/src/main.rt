// Answers the requests NAME.req whose names are the arguments, and holds each answer to NAME.ans, whole.
#![tactic(auto)]

ghost use Rattle.std.specs.Prelude.{◌≤◌, IfSome, length};
ghost use Rattle.std.specs.Io.{ReadsAtMost};
ghost use Rattle.io.specs.Counts.{IsPrefixLen};
ghost use Rattle.form.proofs.Room.{most_text};

use answering::TEXT_SIZE;
use std::env::FillError;
use std::fs::File;
use std::io;
use std::rt::{Env, Files};

// Opens the file that the bytes of a path name, and reads it.
fn read_file(rt: &impl Files, path: &[u8], out: &mut [u8]) -> io::Result<usize>
    ensures { ReadsAtMost result out.new }
{
    let Ok(path) = str::from_utf8(path) else {
        return Err(io::Error::from(io::ErrorKind::InvalidFilename));
    };
    let mut file = File::open(rt, path)?;
    intake::read_full(&mut file, out)
}

// The bytes of a file, at the front of out; none, and why, if it cannot be opened or read.
fn read(rt: &(impl Files + Eprint), path: &[u8], out: &mut [u8]) -> usize
    ensures { IsPrefixLen result out.new }
{
    match read_file(rt, path, out) {
        Ok(n) => n,
        Err(e) => {
            let _ = eprintln!(rt; "{}: {e}", path.escape_ascii());
            0
        }
    }
}

// The i-th argument at the front of name, and how many bytes it has; none if it is missing, or longer than name.
fn argument(rt: &impl Env, i: usize, name: &mut [u8]) -> usize
    ensures { IsPrefixLen result name.new }
{
    rt.arg(i, name).unwrap_or(0)
}

// The bytes of the file that the i-th argument and the ending name, at the front of out.
fn load(rt: &(impl Files + Env + Eprint), i: usize, ending: &[u8], out: &mut [u8]) -> usize
    ensures { IsPrefixLen result out.new }
{
    let mut path = [0u8; 256];
    let n = argument(rt, i, &mut path);
    let m = print::put_word(&mut path, n, ending);
    let end = m.min(path.len());
    read(rt, &path[..end], out)
}

// In lent memory: whether the answer to the request that the i-th argument names is the one beside it.
fn is_answered(
    rt: &(impl Files + Env + Eprint),
    i: usize,
    request: &mut [u8],
    wanted: &mut [u8],
    text: &mut [u8],
) -> bool
    requires { most_text ≤ length text.old }
{
    let r = load(rt, i, b".req", request);
    let w = load(rt, i, b".ans", wanted);
    let n = answering::answer(&request[..r], text);
    text[..n] == wanted[..w]
}

// No answer has as many bytes as wanted has room for, so a longer file differs.
fn agrees(rt: &(impl Files + Env + Eprint), i: usize) -> bool {
    let mut request = [0u8; 65537];
    let mut wanted = [0u8; 559239];
    let mut text = [0u8; TEXT_SIZE];
    is_answered(rt, i, &mut request, &mut wanted, &mut text)
}

// The first argument from 1 on whose answer differs.
fn first_difference(rt: &(impl Files + Env + Eprint), count: usize) -> Option<usize>
    ensures { IfSome result (λ i. 1 ≤ i) }
{
    (1..count).find(|i| !agrees(rt, *i))
}

// How many arguments there are, the program's name among them.
fn argument_count(rt: &impl Env) -> usize {
    let mut name = [0u8; 256];
    for i in 0..usize::MAX {
        match rt.arg(i, &mut name) {
            Err(FillError::NotPresent) => return i,
            Ok(_) | Err(FillError::TooLong) => {}
        }
    }
    usize::MAX
}

// That n answers agree.
fn tell_agreed(rt: &impl Print, n: usize) -> io::Result<()> {
    println!(rt; "{n} agree")
}

// Which argument's answer differs.
fn tell_difference(rt: &(impl Env + Print), i: usize) -> io::Result<()> {
    let mut name = [0u8; 256];
    let n = argument(rt, i, &mut name);
    rt.write_all(b"first difference: ")?;
    rt.write_all(&name[..n])?;
    rt.write_all(b"\n")
}

fn main(rt: HostRuntime) -> io::Result<()> {
    let count = argument_count(&rt);
    match first_difference(&rt, count) {
        Some(i) => tell_difference(&rt, i),
        None => tell_agreed(&rt, count.saturating_sub(1)),
    }
}
