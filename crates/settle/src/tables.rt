// Flags that name tasks, one table made of two.
ghost use Rattle.std.specs.Prelude.{◌≡◌};
ghost use Rattle.lists.specs.Table.{filled};
ghost use Rattle.rules.specs.Sizes.{task_places};
ghost use Rattle.machine.specs.Machine.{differ_flag, both_flag};

use record::TASKS;

// The places where two tables differ.
pub fn differ(a: [u8; TASKS], b: [u8; TASKS]) -> [u8; TASKS]
    ensures { result ≡ filled task_places (differ_flag a b) }
{
    let mut f = [0u8; TASKS];
    for i in 0..TASKS {
        f[i] = u8::from(a[i] != b[i]);
    }
    f
}

// The places where both tables hold a 1.
pub fn both(a: [u8; TASKS], b: [u8; TASKS]) -> [u8; TASKS]
    ensures { result ≡ filled task_places (both_flag a b) }
{
    let mut f = [0u8; TASKS];
    for i in 0..TASKS {
        f[i] = u8::from((a[i] == 1) & (b[i] == 1));
    }
    f
}
