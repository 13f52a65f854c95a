// Prints the lines that the reader finds in a few texts, to be compared with the stored output.
#![tactic(auto)]

use reader::whole;
use std::io;

// The bytes between brackets: not every line is text.
fn quoted(rt: &impl Print, s: &[u8]) -> io::Result<()> {
    print!(rt; " [")?;
    rt.write_all(s)?;
    print!(rt; "]")
}

// How many lines the text has, the first one; then each of them, and one place more.
fn lines(rt: &impl Print, text: &[u8]) -> io::Result<()> {
    let n = whole::count_lines(text);
    print!(rt; "{n}")?;
    quoted(rt, reader::first_line(text))?;
    print!(rt; ":")?;
    for i in 0..=n {
        quoted(rt, whole::nth_line(text, i))?;
    }
    println!(rt)
}

// What a reader at a place says, and where the next line begins.
fn place(rt: &impl Print, text: &[u8], at: usize) -> io::Result<()> {
    print!(rt; "{at}")?;
    if reader::ended_at(text, at) {
        print!(rt; " ended")?;
    }
    quoted(rt, reader::line_at(text, at))?;
    println!(rt; " {}", reader::next_at(text, at))
}

// Every place of a text, its end, and one past it.
fn places(rt: &impl Print) -> io::Result<()> {
    for at in 0..8 {
        place(rt, b"ab\n\ncd", at)?;
    }
    place(rt, b"ab\n\ncd", usize::MAX)
}

fn main(rt: HostRuntime) -> io::Result<()> {
    let texts: [&[u8]; 8] = [
        b"",
        b"\n",
        b"a",
        b"a\n",
        b"a\nbc",
        b"a\nbc\n",
        b"\n\n",
        b"a\n\nbc\n\n",
    ];
    for text in texts {
        lines(&rt, text)?;
    }
    places(&rt)
}
