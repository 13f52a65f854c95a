// Walks from waiter to owner: `next` holds, for each task, the id of the task it leads to; a number that no task can have leads nowhere.
#![tactic(auto)]

ghost use Rattle.std.specs.Prelude.{◌≡◌, ◌≤◌, min, length};
ghost use Rattle.lists.specs.Count.{member};
ghost use Rattle.lists.specs.Order.{before};
ghost use Rattle.chains.specs.Chain.{endsb};
ghost use Rattle.rules.specs.Sizes.{task_places};
ghost use Rattle.walks.specs.Walk.{task_at, next_in, lifted, raised, chain_from, lent, lent_by};

// How many tasks a table has places for.
pub const TASKS: usize = 16;

// The same, as ids count.
const TASK_PLACES: u8 = TASKS as u8;

// Each task on the chain from `at` raised to `p`, where that is more urgent; the fuel, tasks not yet seen, falls at each call.
pub fn lift(levels: &mut [u8; TASKS], next: &[u8; TASKS], at: u8, p: u8, fuel: u8)
    ensures { levels.new ≡ lifted levels.old p (chain_from next.now at fuel) }
{
    if fuel == 0 {
        return;
    }
    let first = at as usize;
    if TASKS <= first {
        return;
    }
    if p < levels[first] {
        levels[first] = p;
    }
    lift(levels, next, next[first], p, fuel - 1)
}

// The least own priority among each task and all tasks whose chain leads to it, of the first `n` tasks.
pub fn levels_of(own: [u8; TASKS], next: &[u8; TASKS], n: u8) -> [u8; TASKS]
    ensures { result ≡ raised own next.now n (min n task_places) }
{
    let mut l = own;
    for j in 0..n.min(TASK_PLACES) {
        let i = j as usize;
        // A task that leads nowhere lifts only itself, and stands there already.
        let to = next[i];
        if to < TASK_PLACES {
            lift(&mut l, next, j, own[i], n);
        }
    }
    l
}

// One task raised to `p`, where that is more urgent.
fn lend(levels: &mut [u8; TASKS], to: u8, p: u8)
    ensures { levels.new ≡ lent levels.old to p }
{
    let o = to as usize;
    if TASKS <= o {
        return;
    }
    if p < levels[o] {
        levels[o] = p;
    }
}

// Each task's own priority, or the most urgent level that is lent to it by those that lead to it: one link of each chain.
pub fn lent_levels(own: [u8; TASKS], to: &[u8; TASKS], level: &[u8; TASKS]) -> [u8; TASKS]
    ensures { result ≡ lent_by own to.now level.now task_places }
{
    let mut l = own;
    for i in 0..TASKS {
        lend(&mut l, to[i], level[i]);
    }
    l
}

// What a walk along a chain found: how many tasks stand before the caller, and whether it came to the caller. No Result: the links stand with either end.
#[derive(Drop)]
pub struct Found {
    pub links: u8,
    pub ring: bool,
}

// The chain from `at` to its end, or to the caller; the fuel, tasks not yet seen, falls at each call.
pub fn follow(next: &[u8; TASKS], at: u8, caller: u8, fuel: u8) -> Found
    ensures { (result.links ≡ length (before caller (chain_from next.now at fuel))) × (result.ring ≡ member caller (chain_from next.now at fuel)) × (result.links ≤ fuel) }
{
    let mut f = Found {
        links: 0,
        ring: false,
    };
    if fuel == 0 {
        return f;
    }
    let i = at as usize;
    if TASKS <= i {
        return f;
    }
    if at == caller {
        f.ring = true;
        return f;
    }
    f = follow(next, next[i], caller, fuel - 1);
    f.links += 1;
    f
}

// Whether the chain from `at` ends within the fuel.
pub fn ends(next: &[u8; TASKS], at: u8, fuel: u8) -> bool
    ensures { result ≡ endsb fuel (next_in next.now) (task_at at) }
{
    let i = at as usize;
    if TASKS <= i {
        return true;
    }
    if fuel == 0 {
        return false;
    }
    ends(next, next[i], fuel - 1)
}
