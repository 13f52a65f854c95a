// One line of a script run on a record with its words and block, with lent memory for its log line.
ghost use Rattle.std.specs.Prelude.{◌≡◌};
ghost use Rattle.text.specs.Place.{put_answer, put_bytes};
ghost use Rattle.moves.specs.Moves.{words_after, block_after};
ghost use Rattle.record.specs.Whole.{whole};
ghost use Rattle.script_lines.specs.LineRun.{message_words, line_planned, line_for, ran_with, ran_line, memory_line, headed, memory_head};

use kernel::refused;
use moves::Move;
use record::{Answer, EIGHT, Plan, State};
use syntax::Line;
use words::Message;

// Where a script stands: its first line is awaited; steps are run; its first line was bad and nothing more is written. Bytes and no enum, as they become
// the `Session.stage` of `script`, which callers hand in, and every byte is promised to work.
pub const AWAITING: u8 = 0;

pub const RUNNING: u8 = 1;

pub const OVER: u8 = 2;

// A script's first line.
const HEADER: &[u8] = b"kernel\t1";

// What a line came to: the record handed on, the answer, and how many bytes of the lent memory its log line took.
#[derive(Drop)]
pub struct Ran {
    pub state: State,
    pub answer: Answer,
    pub written: usize,
}

// What a log line came to, or the first line's: where the script then stands, and how many bytes it took.
#[derive(Drop)]
pub struct Headed {
    pub stage: u8,
    pub written: usize,
}

// What was read of a line, answered on a record that was tested before, `sound` being what the test said: 14, 15, or its step, before any word is
// moved. The lent block has `space` words. (As in `calls::tested_call`, the record goes through no function more than it must.)
#[tactic(auto, unfolding(crate::specs::LineRun::plan_read, kernel::specs::Planning::planned))]
pub fn answer(s: State, sound: bool, line: Line, space: usize, words: &[u32]) -> Plan
    ensures { result ≡ line_planned sound s words.now space line }
{
    let reading = line.reading;
    let count = line.message.n;
    let Some(request) = reading else {
        let no_step = refused::malformed(s, sound);
        return kernel::stay(s, no_step);
    };
    if !kernel::is_formed(request, count) {
        let no_message = refused::malformed(s, sound);
        return kernel::stay(s, no_message);
    }
    if !sound {
        return kernel::stay(s, refused::unsound());
    }
    steps::perform(s, request, count, space, words)
}

// What a step moves, with the message that was read beside it. This comes after its log line: where that has no room, no word is moved.
pub fn make(m: Move, message: Message, words: &mut [u32], block: &mut [u32])
    ensures held { words.new ≡ words_after m words.old (message_words message) block.old }
    ensures memory { block.new ≡ block_after m words.old (message_words message) block.old }
{
    // never more than eight are read
    let n = message.n.min(EIGHT);
    moves::make(m, words, &message.words[..n], block);
}

// An answer's log line at the front of the lent memory. None where it has no room. (The answer is an enum of numbers alone, taken apart by `let else`, so
// that what is only logged stands apart from what goes on.)
#[tactic(auto, unfolding(record::specs::StepRecord::number_of, record::specs::StepRecord::value_of, record::specs::StepRecord::run_of))]
pub fn log_answer(a: Answer, log: &mut [u8]) -> Option<usize>
    ensures answer { result ≡ put_answer log.old 0 (line_for a) }
    ensures memory { log.new ≡ put_bytes log.old 0 (line_for a) }
{
    let Answer::Accepted { number, value, run } = a else {
        // refused: only logged, the record being still the one handed in
        let Answer::Refused { number, value, run } = a else {
            // never reached: an answer is accepted or refused
            return None;
        };
        return log_lines::write_line(log, number, value, run);
    };
    // accepted: goes on
    log_lines::write_line(log, number, value, run)
}

// One line: its step made, and reported by a log line at the front of the lent memory. The log's 8: where that line has no room the step isn't made,
// and nothing lent changes.
pub fn run_line(s: State, line: &[u8], words: &mut [u32], block: &mut [u32], log: &mut [u8]) -> Ran
    ensures answer { result ≡ ran_with (ran_line (whole s words.old block.old) line.now log.old) }
    ensures held { words.new ≡ (ran_line (whole s words.old block.old) line.now log.old).after.whole.words }
    ensures lent { block.new ≡ (ran_line (whole s words.old block.old) line.now log.old).after.whole.block }
    ensures memory { log.new ≡ memory_line (whole s words.old block.old) line.now log.old }
{
    let sound = sound::is_sound(s, words, block.len());
    let read = syntax::read_line(line);
    let p = answer(s, sound, read, block.len(), words);
    let a = p.answer;
    let next = p.state;
    let m = p.moves;
    let Some(written) = log_answer(a, log) else {
        return Ran {
            state: s,
            answer: refused::without_room(s, sound),
            written: 0,
        };
    };
    make(m, read.message, words, block);
    Ran {
        state: next,
        answer: a,
        written,
    }
}

// The script's first line: the log's first line, or `bad`, at the front of the lent memory. None where that has no room: the first line is still awaited.
pub fn run_header(line: &[u8], log: &mut [u8]) -> Option<Headed>
    ensures answer { result ≡ headed line.now log.old }
    ensures memory { log.new ≡ memory_head line.now log.old }
{
    if line == HEADER {
        let written = log_lines::write_header(log)?;
        return Some(Headed {
            stage: RUNNING,
            written,
        });
    }
    let written = log_lines::write_bad(log)?;
    Some(Headed {
        stage: OVER,
        written,
    })
}
