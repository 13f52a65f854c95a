// The steps on message queues: the refusals in the order of the table, then what the step does. Words of messages move afterwards (`moves`).
#![tactic(auto, using(record::specs::RefusedLaws::refusal_some), unfolding(record::specs::Refused::refusal_code, record::specs::Refused::refusal_number, machine::specs::Machine::called_by, machine::specs::Machine::may_wait, machine::specs::Machine::timed_refusal, machine::specs::Machine::send_step, machine::specs::Machine::send_waits, machine::specs::Machine::send_blocked, machine::specs::Machine::delivered, machine::specs::Machine::taken_in, machine::specs::Machine::sent_off, machine::specs::Machine::may_take, machine::specs::Machine::receive_step))]

ghost use Rattle.std.specs.Prelude.{◌≡◌, ◌<◌, cond, eqb};
ghost use Rattle.rules.specs.Sizes.{on_send, on_receive};
ghost use Rattle.task_lists.specs.TaskList.{no_id};
ghost use Rattle.moves.specs.declared.Move.TheVariants.{Take, Swap};
ghost use Rattle.machine.specs.Machine.{width_at, used_at, place_at, best_at, settled, send_waits, delivered, send_step, taken_in, may_take, receive_step};

use moves::Move;
use record::{NONE, ON_RECEIVE, ON_SEND, Plan, Queues, Refusal, State};
use replies::{answers, refusals};

// A wait to send has begun or ended: where the queue has no owner nothing is lent, and levels stay.
fn settle_behind(s: &mut State, owner: u8)
    ensures { s.new ≡ cond (eqb owner no_id) s.old (settled s.old) }
{
    if owner == NONE {
        return;
    }
    effects::settle(s);
}

// The caller waits for room, its words held, unless it may not.
fn wait_for_room(mut s: State, q: u8, time: u32) -> Plan
    ensures { result ≡ send_waits s q time }
{
    if let Err(no) = refusals::of_wait(s.hold, time) {
        return answers::refused(s, no);
    }
    let caller = s.running;
    let owner = queue_places::owner_at(s.queues, q);
    let f = leads::chain(s.tasks, s.mutexes.owner, s.queues.owner, owner, caller);
    if f.ring {
        return answers::ring(s, u32::from(f.links));
    }
    effects::block(&mut s, ON_SEND, q, time);
    settle_behind(&mut s, owner);
    effects::dispatch(&mut s);
    answers::waits_moving(s, u32::from(f.links), Move::Hold { task: caller })
}

// The message goes to the best waiting receiver; where nobody waits, to the tail.
fn deliver(mut s: State, q: u8) -> Plan
    requires { used_at s.queues q < 255 }
    ensures { result ≡ delivered s q (best_at s on_receive q) }
{
    let best = waits::best_for(s.tasks, s.waiting, ON_RECEIVE, q);
    if best == NONE {
        let used = queue_places::used_at(s.queues, q);
        let place = queue_places::place_of(s.queues, q, used);
        s.queues = objects::set_used(s.queues, q, used + 1);
        return answers::done_moving(s, Move::Queue { place });
    }
    effects::grant(&mut s, best);
    effects::enter(&mut s, best);
    effects::dispatch(&mut s);
    answers::done_moving(s, Move::Hold { task: best })
}

// A message of `count` words: the owner of a full queue is refused, as only it could make room.
#[inline(never)]
pub fn send(s: State, queue: u32, time: u32, count: usize) -> Plan
    ensures { result ≡ send_step s queue time count }
{
    if let Err(no) = refusals::of_timed(s.started, s.running, s.queues.n, queue, time) {
        return answers::refused(s, no);
    }
    let q = queue as u8;
    if count != queue_places::width_at(s.queues, q) as usize {
        return answers::refused(s, Refusal::OutOfRange);
    }
    if queue_places::used_at(s.queues, q) < queue_places::depth_at(s.queues, q) {
        return deliver(s, q);
    }
    if queue_places::owner_at(s.queues, q) == s.running {
        return answers::refused(s, Refusal::OwnerAlready);
    }
    wait_for_room(s, q, time)
}

// The message k behind the oldest one, moved to the words of the task that takes it.
fn taken(x: Queues, q: u8, k: u8, task: u8) -> Move
    ensures { result ≡ Take (place_at x q k) (width_at x q) task }
{
    let place = queue_places::place_of(x, q, k);
    let width = queue_places::width_at(x, q);
    Move::Take { place, width, task }
}

// The oldest message so moved, and a waiting sender's message goes to the place that it leaves: the tail of a full ring.
fn swapped(x: Queues, q: u8, task: u8, sender: u8) -> Move
    ensures { result ≡ Swap (place_at x q 0) (width_at x q) task sender }
{
    let place = queue_places::place_of(x, q, 0);
    let width = queue_places::width_at(x, q);
    Move::Swap {
        place,
        width,
        task,
        sender,
    }
}

// The caller takes the oldest message; then there is room for that of the best waiting sender, which becomes ready.
fn take(mut s: State, q: u8) -> Plan
    requires { 0 < used_at s.queues q }
    ensures { result ≡ taken_in s q (best_at s on_send q) }
{
    let caller = s.running;
    let before = s.queues;
    let best = waits::best_for(s.tasks, s.waiting, ON_SEND, q);
    s.queues = objects::set_oldest(before, q, queue_places::next_oldest(before, q));
    if best == NONE {
        let left = queue_places::used_at(before, q) - 1;
        s.queues = objects::set_used(s.queues, q, left);
        return answers::done_moving(s, taken(before, q, 0, caller));
    }
    let owner = queue_places::owner_at(s.queues, q);
    effects::grant(&mut s, best);
    settle_behind(&mut s, owner);
    effects::enter(&mut s, best);
    effects::dispatch(&mut s);
    answers::done_moving(s, swapped(before, q, caller, best))
}

// Nobody but its owner receives from an owned queue.
fn may_take(owner: u8, caller: u8) -> bool
    ensures { result ≡ may_take owner caller }
{
    owner == NONE || owner == caller
}

// The oldest message is taken; where there is none, the caller waits for one, unless it may not.
#[inline(never)]
pub fn receive(mut s: State, queue: u32, time: u32) -> Plan
    ensures { result ≡ receive_step s queue time }
{
    if let Err(no) = refusals::of_timed(s.started, s.running, s.queues.n, queue, time) {
        return answers::refused(s, no);
    }
    let q = queue as u8;
    if !may_take(queue_places::owner_at(s.queues, q), s.running) {
        return answers::refused(s, Refusal::NotOwner);
    }
    if queue_places::used_at(s.queues, q) != 0 {
        return take(s, q);
    }
    if let Err(no) = refusals::of_wait(s.hold, time) {
        return answers::refused(s, no);
    }
    effects::block(&mut s, ON_RECEIVE, q, time);
    effects::dispatch(&mut s);
    answers::waits(s, 0)
}
