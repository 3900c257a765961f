// Lists one run file from standard input (01, "The listing"). At most 65,009 bytes are read (02, A6), one more than the longest run has.
// Where a run can't be read or its listing can't be written, it says so in one line on standard error: a fault is no verdict on the file.
#![tactic(auto)]

ghost use Rattle.std.specs.Prelude.{◌≡◌, length, take, IfOk};
ghost use Rattle.listing.specs.Counts.{IsPrefixLen};
ghost use Rattle.catalog.specs.Listing.{listing_of, most_read};

use header::record;
use std::env::{Env, FillError};
use std::io::{Error, ErrorKind, Read, Stdin, Stdout, Write};
use std::rt::HostRuntime;

// The header, 2,600 lines and the totals, 64 bytes each.
const ROOM: usize = 64 * (header::MOST + 2);

// "up to 65,009 bytes" (02, A6): one more than the longest run has, which is of version 2.
const MOST_READ: usize = header::SIZE + record::SIZE_2 * header::MOST_2 + 1;

// Reads until the buffer is full, the input ends or a read fails, and says how many bytes it has. A read that a signal interrupts is tried
// again. A proved loop has to end, and nothing says that the input does: so the turns are counted, up to a number that no input uses up.
fn read_input(mut stdin: Stdin, file: &mut [u8]) -> Result<usize, Error>
    requires { length file.old ≡ most_read }
    ensures { IfOk result (λ n. IsPrefixLen n file.new) }
{
    let mut done = 0;
    for _ in 0..u64::MAX {
        if done == file.len() {
            return Ok(done);
        }
        match stdin.read(&mut file[done..]) {
            Ok(0) => return Ok(done),
            Ok(n) => done += n,
            Err(e) if e.kind() == ErrorKind::Interrupted => {}
            Err(e) => return Err(e),
        }
    }
    Err(Error::from(ErrorKind::TimedOut))
}

// The file's listing, whole, at the start of a buffer that has room for every file's.
fn whole_listing(file: &[u8], out: &mut [u8; ROOM]) -> usize
    ensures { (IsPrefixLen result out.new) × (take result out.new ≡ listing_of file.now) }
{
    catalog::listing(file, out)
}

// Says what failed in a line on standard error: what, and the system's words for why, without the number that std puts after them. Where there is no
// memory for the line the number stands there too.
fn fail(rt: HostRuntime, what: &str, error: Error) {
    let Ok(text) = format!(in rt.alloc(); "{error}") else {
        let _ = eprintln!(rt; "{what}: {error}");
        return;
    };
    let words = text.as_str();
    let why = words
        .split_once(" (os error ")
        .map_or(words, |(why, _)| why);
    let _ = eprintln!(rt; "{what}: {why}");
}

// Writes all of it, or says why a write failed. One that a signal interrupts or that takes nothing has failed.
// kept: std's write_all tries an interrupted write again, where this program says that it failed (DECISIONS 37).
fn write_whole(mut stdout: Stdout, listing: &[u8]) -> Result<(), Error> {
    let mut rest = listing;
    while !rest.is_empty() {
        let n = stdout.write(rest)?;
        if n == 0 {
            return Err(Error::from(ErrorKind::WriteZero));
        }
        rest = &rest[n..];
    }
    Ok(())
}

fn print_listing(rt: HostRuntime, file: &[u8]) {
    let mut out = [0u8; ROOM];
    let n = whole_listing(file, &mut out);
    if let Err(e) = write_whole(rt.stdout(), &out[..n]) {
        fail(rt, "listing: the listing can't be written whole", e);
    }
}

fn main(rt: HostRuntime) {
    if !matches!(rt.arg(1, &mut []), Err(FillError::NotPresent)) {
        let _ = eprintln!(rt; "usage: listing <FILE");
        return;
    }
    // kept: buffers of fixed size, this and `out`, as no run and no listing is taken from the heap (DECISIONS 121)
    let mut file = [0u8; MOST_READ];
    match read_input(rt.stdin(), &mut file) {
        Ok(n) => print_listing(rt, &file[..n]),
        Err(e) => fail(rt, "listing: standard input can't be read", e),
    }
}
