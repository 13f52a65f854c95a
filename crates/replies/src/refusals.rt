// Why a step may not be made, where several steps ask the same.
ghost use Rattle.std.specs.Prelude.{◌≡◌, ◌<◌};
ghost use Rattle.record.specs.Refused.{refusal_code};
ghost use Rattle.machine.specs.Machine.{caller_refusal, is_time, timed_refusal, wait_refusal};

use record::{FOREVER, MAX_TICKS, NONE, Refusal};

// A step that needs a caller: 4 before start, 5 with none running.
#[tactic(auto, unfolding(record::specs::Refused::refusal_code, record::specs::Refused::refusal_number, machine::specs::Machine::caller_refusal))]
pub fn of_caller(started: u8, running: u8) -> Result<(), Refusal>
    ensures { refusal_code result ≡ caller_refusal started running }
{
    if started == 0 {
        return Err(Refusal::WrongPhase);
    }
    if running == NONE {
        return Err(Refusal::NoCaller);
    }
    Ok(())
}

// "0 (don't wait), 1 to 2147483647 ticks, or 4294967295 (forever)"
#[tactic(auto, unfolding(machine::specs::Machine::is_time))]
pub fn is_time(t: u32) -> bool
    ensures { result ≡ is_time t }
{
    t <= MAX_TICKS || t == FOREVER
}

// A step that may wait for one of `n` objects: without a caller 4 or 5, 6 for no such object, 7 for what is no time. The clause `there` tells the
// caller's proof that the number of an object that is there fits a byte.
#[tactic(auto, unfolding(record::specs::Refused::refusal_code, record::specs::Refused::refusal_number, machine::specs::Machine::timed_refusal))]
pub fn of_timed(started: u8, running: u8, n: u8, object: u32, time: u32) -> Result<(), Refusal>
    ensures number { refusal_code result ≡ timed_refusal started running n object time }
    ensures there { refusal_code result ≡ 0 → object < 256 }
{
    of_caller(started, running)?;
    if u32::from(n) <= object {
        return Err(Refusal::NoSuchObject);
    }
    if !is_time(time) {
        return Err(Refusal::OutOfRange);
    }
    Ok(())
}

// A caller that would wait: 3 where its time is 0, else 11 while scheduling is held.
#[tactic(auto, unfolding(record::specs::Refused::refusal_code, record::specs::Refused::refusal_number, machine::specs::Machine::wait_refusal))]
pub fn of_wait(hold: u8, time: u32) -> Result<(), Refusal>
    ensures { refusal_code result ≡ wait_refusal hold time }
{
    if time == 0 {
        return Err(Refusal::WouldWait);
    }
    if hold != 0 {
        return Err(Refusal::Held);
    }
    Ok(())
}
