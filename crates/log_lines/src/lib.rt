// Log lines at the front of lent memory, whole or not at all.
#![tactic(auto)]

ghost use Rattle.std.specs.Prelude.{◌≡◌, length};
ghost use Rattle.decimal.specs.Decimal.{decimal};
ghost use Rattle.text.specs.Place.{put_answer, put_bytes};
ghost use Rattle.rules.specs.Log.{run_field};
ghost use Rattle.walks.specs.Walk.{task_at};
ghost use Rattle.log_lines.specs.LogLine.{line_bytes, log_bytes, bad_bytes, place_after};

use text::place;

// The first line of a log: `log`, tab, `1`.
#[tactic(auto, unfolding(crate::specs::LogLine::log_bytes, text::specs::Ascii::ascii))]
pub fn write_header(log: &mut [u8]) -> Option<usize>
    ensures answer { result ≡ put_answer log.old 0 log_bytes }
    ensures memory { log.new ≡ put_bytes log.old 0 log_bytes }
{
    place::put_bytes(log, 0, b"log\t1\n")
}

// The whole log of a script with another first line than its own: `bad`, tab, `1`.
#[tactic(auto, unfolding(crate::specs::LogLine::bad_bytes, text::specs::Ascii::ascii))]
pub fn write_bad(log: &mut [u8]) -> Option<usize>
    ensures answer { result ≡ put_answer log.old 0 bad_bytes }
    ensures memory { log.new ≡ put_bytes log.old 0 bad_bytes }
{
    place::put_bytes(log, 0, b"bad\t1\n")
}

// How many bytes the field of the task to run has.
#[tactic(auto, using(crate::specs::LogLineLaws::run_task, crate::specs::LogLineLaws::run_none))]
fn run_length(run: u8) -> usize
    ensures { result ≡ length (run_field (task_at run)) }
{
    if (run as usize) < record::TASKS {
        return decimal::digits(run as u32);
    }
    1
}

// How many bytes an answer's line has: its fields, two tabs and the LF.
fn line_length(number: u8, value: u32, run: u8) -> usize
    ensures { result ≡ length (line_bytes number value run) }
{
    decimal::digits(number as u32) + decimal::digits(value) + run_length(run) + 3
}

// A number's digits, from `at` on; the place behind them.
#[tactic(auto, unfolding(text::specs::Place::put_answer, crate::specs::LogLine::place_after))]
fn put_number(log: &mut [u8], at: usize, v: u32) -> usize
    ensures place { result ≡ place_after log.old at (decimal v) }
    ensures memory { log.new ≡ put_bytes log.old at (decimal v) }
{
    decimal::write(log, at, v).unwrap_or(at)
}

// Bytes, from `at` on; the place behind them.
#[tactic(auto, unfolding(text::specs::Place::put_answer, crate::specs::LogLine::place_after))]
fn put_text(log: &mut [u8], at: usize, bytes: &[u8]) -> usize
    ensures place { result ≡ place_after log.old at bytes.now }
    ensures memory { log.new ≡ put_bytes log.old at bytes.now }
{
    place::put_bytes(log, at, bytes).unwrap_or(at)
}

// The task to run, or `-`.
#[tactic(auto, using(crate::specs::LogLineLaws::run_task, crate::specs::LogLineLaws::run_none))]
fn put_run(log: &mut [u8], at: usize, run: u8) -> usize
    ensures place { result ≡ place_after log.old at (run_field (task_at run)) }
    ensures memory { log.new ≡ put_bytes log.old at (run_field (task_at run)) }
{
    if (run as usize) < record::TASKS {
        return put_number(log, at, run as u32);
    }
    put_text(log, at, b"-")
}

// An answer's line at the front of the lent memory: number, value, task to run or `-`. The room is tested once, before the first
// byte is written, so that nothing changes where the line has no room.
pub fn write_line(log: &mut [u8], number: u8, value: u32, run: u8) -> Option<usize>
    ensures answer { result ≡ put_answer log.old 0 (line_bytes number value run) }
    ensures memory { log.new ≡ put_bytes log.old 0 (line_bytes number value run) }
{
    if log.len() < line_length(number, value, run) {
        return None;
    }
    let a = put_number(log, 0, number as u32);
    let b = put_text(log, a, b"\t");
    let c = put_number(log, b, value);
    let d = put_text(log, c, b"\t");
    let e = put_run(log, d, run);
    let end = put_text(log, e, b"\n");
    Some(end)
}
