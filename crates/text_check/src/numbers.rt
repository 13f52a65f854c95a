// Numbers read and written, round the powers of ten and of two.
use crate::show::Quoted;
use std::io;

// v written at a place of lent bytes: the place behind it, and the bytes then.
fn write(rt: &impl Print, out: &mut [u8], at: usize, v: u32) -> io::Result<()> {
    match decimal::write(out, at, v) {
        Some(n) => print!(rt; " {n}")?,
        None => print!(rt; " full")?,
    }
    println!(rt; " {}", Quoted(out))
}

// The number that s is, how many digits it has, and the same written again at place 1 of twelve bytes.
fn parse(rt: &impl Print, s: &[u8]) -> io::Result<()> {
    print!(rt; "parse {}", Quoted(s))?;
    match decimal::parse(s) {
        Some(v) => {
            print!(rt; " {v} {}", decimal::digits(v))?;
            write(rt, &mut [b'.'; 12], 1, v)
        }
        None => println!(rt; " bad"),
    }
}

// Each line of a list.
fn parse_each(rt: &impl Print, list: &[u8]) -> io::Result<()> {
    for s in list.split(|byte| *byte == b'\n') {
        parse(rt, s)?;
    }
    Ok(())
}

pub fn parsing(rt: &impl Print) -> io::Result<()> {
    parse_each(rt, b"\n00\n01\n+1\n-1\n 1\n1 \n1a\n/\n:\n\x00\n\xff\n1\xff")?;
    parse_each(
        rt,
        b"0\n9\n10\n99\n100\n999\n1000\n9999\n10000\n99999\n100000\n999999\n1000000",
    )?;
    parse_each(
        rt,
        b"9999999\n10000000\n99999999\n100000000\n999999999\n1000000000",
    )?;
    parse_each(rt, b"2147483647\n2147483648\n4294967294\n4294967295")?;
    parse_each(rt, b"4294967296\n4294967305\n9999999999\n10000000000")?;
    parse_each(rt, b"18446744073709551616\n99999999999999999999")
}

// v written at a place of eight bytes.
fn room(rt: &impl Print, at: usize, v: u32) -> io::Result<()> {
    print!(rt; "room {at} {v}")?;
    write(rt, &mut [b'.'; 8], at, v)
}

pub fn rooms(rt: &impl Print) -> io::Result<()> {
    for (at, v) in [
        (0, 12345678),
        (0, 123456789),
        (1, 1234567),
        (1, 12345678),
        (7, 0),
        (8, 0),
        (9, 0),
        (usize::MAX, u32::MAX),
    ] {
        room(rt, at, v)?;
    }
    Ok(())
}
