// Texts that arrive in pieces, cut into lines with a carry.
ghost use Rattle.std.specs.Prelude.{◌<◌};

use crate::show::Quoted;
use arrive::{Found, LONGEST};
use std::io;

fn found(rt: &impl Print, carry: &[u8], bytes: &[u8], f: Found) -> io::Result<()> {
    match f {
        Found::Part { start: _, end: _ } | Found::Carried(_) => {
            print!(rt; " {}", Quoted(arrive::line(carry, bytes, f)))
        }
        Found::Long => print!(rt; " long"),
        Found::Nothing => Ok(()),
    }
}

// One piece: on from line's end to line's end; how many bytes are held then.
fn piece(rt: &impl Print, carry: &mut [u8], mut held: usize, bytes: &[u8]) -> io::Result<usize> {
    let mut at = 0;
    // a `for` is no plainer: each step is as long as what was found
    while at < bytes.len() {
        let f = arrive::feed(carry, held, bytes, at);
        found(rt, carry, bytes, f.found)?;
        held = f.held;
        at = f.next;
    }
    Ok(held)
}

// The text in pieces of a size.
fn arrive(rt: &impl Print, carry: &mut [u8], s: &[u8], size: usize) -> io::Result<()>
    requires { 0 < size }
{
    print!(rt; "pieces of {size}:")?;
    let mut held = 0;
    for bytes in s.chunks(size) {
        held = piece(rt, carry, held, bytes)?;
    }
    found(rt, carry, s, arrive::finish(carry, held))?;
    println!(rt)
}

// At most four bytes in a line.
fn split(rt: &impl Print, s: &[u8]) -> io::Result<()> {
    let mut carry = [0u8; 4];
    println!(rt; "split {}", Quoted(s))?;
    for size in [1, 2, 3, 4, 5, 1000] {
        arrive(rt, &mut carry, s, size)?;
    }
    Ok(())
}

pub fn splits(rt: &impl Print) -> io::Result<()> {
    let texts: [&[u8]; 10] = [
        b"",
        b"\n",
        b"\n\n",
        b"abcd",
        b"abcde",
        b"abcd\n",
        b"abcde\n",
        b"abcd\nabcde\nabc",
        b"abcdefghijklm\n\nab\nabcde",
        b"\x00\xff\t\n\r\n\n",
    ];
    for s in texts {
        split(rt, s)?;
    }
    Ok(())
}

// More bytes than a script's line may have.
const MANY: usize = LONGEST + 10;

// A line of n bytes, and another behind its LF, with a carry for a script's lines.
fn long_line(rt: &impl Print, n: usize) -> io::Result<()>
    requires { n < 170 }
{
    let mut carry = [0u8; LONGEST];
    let mut s = [b'x'; MANY];
    s[n] = b'\n';
    println!(rt; "line of {n}")?;
    for size in [1, 7, MANY] {
        arrive(rt, &mut carry, &s, size)?;
    }
    Ok(())
}

pub fn longest(rt: &impl Print) -> io::Result<()> {
    for n in [0, 159, 160, 161, 169] {
        long_line(rt, n)?;
    }
    Ok(())
}

// One call, with any numbers.
fn call(rt: &impl Print, held: usize, at: usize) -> io::Result<()> {
    let mut carry = *b"wxyz";
    let bytes = b"ab\ncdefg\nhi";
    print!(rt; "call {held} {at}:")?;
    let f = arrive::feed(&mut carry, held, bytes, at);
    found(rt, &carry, bytes, f.found)?;
    print!(rt; " {} {} {}", f.next, f.held, Quoted(&carry))?;
    found(rt, &carry, bytes, arrive::finish(&carry, held))?;
    println!(rt)
}

pub fn places(rt: &impl Print) -> io::Result<()> {
    for (held, at) in [
        (0, 0),
        (1, 0),
        (2, 0),
        (3, 0),
        (5, 0),
        (0, 2),
        (4, 2),
        (5, 2),
        (0, 3),
        (1, 3),
        (0, 9),
        (2, 9),
        (3, 9),
        (0, 11),
        (4, 11),
        (5, 12),
        (usize::MAX, usize::MAX),
    ] {
        call(rt, held, at)?;
    }
    Ok(())
}
