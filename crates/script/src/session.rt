// A script whose bytes arrive in any pieces, run line by line.
ghost use Rattle.std.specs.Prelude.{◌≡◌};
ghost use Rattle.text.specs.Place.{put_bytes};
ghost use Rattle.syntax.specs.Line.{line_read};
ghost use Rattle.script.specs.Session.{fresh_session, script_of, lineb, leftb, step_at, log_at, logged_at, moved_of, moved_to, piece_run, end_run, end_memory};

use arrive::Found;
use record::{Answer, State};
use script_lines::run;
use script_lines::run::{AWAITING, Headed, RUNNING};
use syntax::Line;

// What a script has come to: the record, where it stands, and how many bytes of a line the carry holds. The words that tasks hold, WORDS of them, and the
// block for queues are lent with each call, the same as the last call left them; at first the words are 0. (Both go side by side through these functions, and
// not in a struct: lent slices are what the documents fix.) `stage` is a byte and no enum: callers hand it in, and every byte is promised to work.
#[derive(Clone, Copy)]
pub struct Session {
    pub state: State,
    pub stage: u8,
    pub held: usize,
}

// What a piece of the script came to: the session then, the place behind what was taken, and how many bytes of log were written. The log memory is
// full, which is the log's 8, where the line that begins at `next`, or whose rest does, has no room for its log line: nothing of it is done.
#[derive(Clone, Copy)]
pub struct Moved {
    pub session: Session,
    pub next: usize,
    pub written: usize,
    pub full: bool,
}

// A script before its first byte.
#[tactic(auto, unfolding(crate::specs::Session::fresh_session))]
pub fn begin() -> Session
    ensures { result ≡ fresh_session }
{
    Session {
        state: record::fresh(),
        stage: AWAITING,
        held: 0,
    }
}

// Was a line's end found?
#[tactic(auto, unfolding(crate::specs::Session::lineb))]
fn is_line(found: Found) -> bool
    ensures { result ≡ lineb found }
{
    !matches!(found, Found::Nothing)
}

// The step that a line is. Before a good first line, and after a bad one, no line is a step.
#[tactic(auto, unfolding(crate::specs::Session::step_at, words::specs::Reading::reading_for, words::specs::Reading::message_on))]
fn read(stage: u8, line: &[u8]) -> Line
    ensures { result ≡ line_read (step_at stage line.now) }
{
    if stage == RUNNING {
        return syntax::read_line(line);
    }
    Line {
        reading: None,
        message: words::no_message(),
    }
}

// A line's log line: of its answer, or of the first line. None where it has no room. A line after a bad first line is passed over.
#[tactic(auto, using(crate::specs::LineLaws::log_lines))]
fn log_line(stage: u8, a: Answer, line: &[u8], log: &mut [u8]) -> Option<Headed>
    ensures answer { result ≡ logged_at stage a line.now log.old }
    ensures memory { log.new ≡ put_bytes log.old 0 (log_at stage a line.now) }
{
    if stage == RUNNING {
        let written = run::log_answer(a, log)?;
        return Some(Headed { stage, written });
    }
    if stage == AWAITING {
        return run::run_header(line, log);
    }
    Some(Headed { stage, written: 0 })
}

// A piece of the script, with lent memory for the log lines of the lines that end in it. A line longer than the carry, which has LONGEST bytes,
// is answered 14. At a line whose log line has no room it stops, record, words and block as before that line: the caller writes the log, and
// goes on with the bytes from `next` on, the same carry and more memory. 33 bytes are room for any line.
// The record is tested once: a line leaves a sound one sound, and one that isn't as it was.
pub fn arrive(
    session: Session,
    words: &mut [u32],
    block: &mut [u32],
    carry: &mut [u8],
    bytes: &[u8],
    log: &mut [u8],
) -> Moved
    ensures answer { result ≡ moved_to (piece_run (script_of session words.old block.old) carry.old bytes.now log.old) }
    ensures held { words.new ≡ (piece_run (script_of session words.old block.old) carry.old bytes.now log.old).stand.session.whole.words }
    ensures lent { block.new ≡ (piece_run (script_of session words.old block.old) carry.old bytes.now log.old).stand.session.whole.block }
    ensures carried { carry.new ≡ (piece_run (script_of session words.old block.old) carry.old bytes.now log.old).stand.carry }
    ensures memory { log.new ≡ (piece_run (script_of session words.old block.old) carry.old bytes.now log.old).stand.memory }
{
    let sound = sound::is_sound(session.state, words, block.len());
    let mut moved = Moved {
        session,
        next: 0,
        written: 0,
        full: false,
    };
    // by lines, of which `feed` says where the next begins: no index is counted
    while moved.next < bytes.len() {
        let f = arrive::feed(carry, moved.session.held, bytes, moved.next);
        if !is_line(f.found) {
            // what is left of the piece begins a line
            moved.session.held = f.held;
            moved.next = f.next;
            return moved;
        }
        let line = arrive::line(carry, bytes, f.found);
        let r = read(moved.session.stage, line);
        let p = run::answer(moved.session.state, sound, r, block.len(), words);
        let free = &mut log[moved.written..];
        let Some(l) = log_line(moved.session.stage, p.answer, line, free) else {
            moved.full = true;
            return moved;
        };
        run::make(p.moves, r.message, words, block);
        moved.session = Session {
            state: p.state,
            stage: l.stage,
            held: f.held,
        };
        moved.next = f.next;
        moved.written += l.written;
    }
    moved
}

// Is a line left when nothing more arrives? A last line without LF; or, where not even a first line came, none, as if it were empty.
#[tactic(auto, unfolding(crate::specs::Session::leftb))]
fn is_left(stage: u8, held: usize) -> bool
    ensures { result ≡ leftb stage held }
{
    held != 0 || stage == AWAITING
}

// The end of the script, with lent memory for one log line. Where that is full, session, words and block are as handed in, for another call
// with more memory. No bytes are handed in, so `next` is 0.
pub fn end(
    session: Session,
    words: &mut [u32],
    block: &mut [u32],
    carry: &[u8],
    log: &mut [u8],
) -> Moved
    ensures answer { result ≡ moved_of (end_run (script_of session words.old block.old) carry.now log.old) }
    ensures held { words.new ≡ (end_run (script_of session words.old block.old) carry.now log.old).session.whole.words }
    ensures lent { block.new ≡ (end_run (script_of session words.old block.old) carry.now log.old).session.whole.block }
    ensures memory { log.new ≡ end_memory (script_of session words.old block.old) carry.now log.old }
{
    let mut moved = Moved {
        session,
        next: 0,
        written: 0,
        full: false,
    };
    if !is_left(session.stage, session.held) {
        moved.session.held = 0;
        return moved;
    }
    let found = arrive::finish(carry, session.held);
    let line = arrive::line(carry, &carry[..0], found);
    let r = read(session.stage, line);
    let sound = sound::is_sound(session.state, words, block.len());
    let p = run::answer(session.state, sound, r, block.len(), words);
    let Some(l) = log_line(session.stage, p.answer, line, log) else {
        moved.full = true;
        return moved;
    };
    run::make(p.moves, r.message, words, block);
    moved.session = Session {
        state: p.state,
        stage: l.stage,
        held: 0,
    };
    moved.written = l.written;
    moved
}
