// Fields of a line and lines of a text.
use crate::show::Quoted;
use std::io;

// Each field, and one place more.
fn fields_of(rt: &impl Print, line: &[u8]) -> io::Result<()> {
    let n = text::fields::count(line);
    print!(rt; "fields {} {n}", Quoted(line))?;
    for i in 0..=n {
        print!(rt; " {}", Quoted(text::fields::nth(line, i)))?;
    }
    println!(rt)
}

pub fn fields(rt: &impl Print) -> io::Result<()> {
    let lines: [&[u8]; 9] = [
        b"",
        b"\t",
        b"\t\t",
        b"tick",
        b"lock\t0\t10",
        b"lock\t\t10",
        b"\tlock",
        b"lock\t",
        b"a b\x00\xff\tc",
    ];
    for line in lines {
        fields_of(rt, line)?;
    }
    Ok(())
}

// Where each line begins and ends, and the line; then where the next one would begin.
fn lines_of(rt: &impl Print, s: &[u8]) -> io::Result<()> {
    print!(rt; "lines {}", Quoted(s))?;
    let mut at = 0;
    // a `for` is no plainer: each step is as long as its line
    while at < s.len() {
        print!(rt;
            " {at} {} {}",
            text::lines::end(s, at),
            Quoted(text::lines::line(s, at))
        )?;
        at = text::lines::next(s, at);
    }
    println!(rt; " {}", text::lines::next(s, at))
}

pub fn lines(rt: &impl Print) -> io::Result<()> {
    let texts: [&[u8]; 8] = [
        b"",
        b"\n",
        b"\n\n",
        b"a",
        b"a\n",
        b"a\nb",
        b"\na\n\nb\n",
        b"\x00\xff\t\n\r\n",
    ];
    for s in texts {
        lines_of(rt, s)?;
    }
    Ok(())
}
