// The program of document 01: the four files of its folder, and what is printed of them.
#![tactic(auto)]

mod output;
mod text;

ghost use Rattle.std.specs.Io.{ReadsAtMost};
ghost use Rattle.program.specs.Counts.{IsPrefixLen};

use std::fs::File;
use std::io;
use std::io::{Read, Write};

// Reads until the buffer is full or the file has ended, and answers how many bytes it put there.
fn read_full(file: &mut File, buf: &mut [u8]) -> io::Result<usize>
    ensures { ReadsAtMost result buf.new }
{
    let mut n = 0;
    for _ in 0..u64::MAX {
        if n == buf.len() {
            break;
        }
        match file.read(&mut buf[n..]) {
            Ok(0) => break,
            Ok(more) => n += more,
            Err(e) => return Err(e),
        }
    }
    Ok(n)
}

// Reads a file until the buffer is full, and answers how many bytes it put there. Each buffer has a byte more than any file that
// is accepted, so a longer file is refused and never cut. A file that is missing or cannot be read to its end counts as empty.
fn load(rt: &HostRuntime, name: &str, buf: &mut [u8]) -> usize
    ensures { IsPrefixLen result buf.new }
{
    let Ok(mut file) = File::open(rt, name) else {
        return 0;
    };
    match read_full(&mut file, buf) {
        Ok(n) => n,
        Err(_) => 0,
    }
}

fn main(rt: HostRuntime) -> io::Result<()> {
    let mut catalogue = [0u8; 65];
    let c = load(&rt, "catalogue", &mut catalogue);
    let mut values = [0u8; 32769];
    let v = load(&rt, "values", &mut values);
    let mut permits = [0u8; 2049];
    let p = load(&rt, "permits", &mut permits);
    let mut question = [0u8; 1025];
    let q = load(&rt, "question", &mut question);
    let mut out = [0u8; 470000];
    let n = output::respond(
        &catalogue[..c],
        &values[..v],
        &permits[..p],
        &question[..q],
        &mut out,
    );
    io::writer(&rt).write_all(&out[..n])
}
