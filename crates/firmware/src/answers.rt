// The parts of an answer out of its one number.
ghost use Rattle.std.specs.Prelude.{◌≡◌};
ghost use Rattle.calls.specs.Packed.{number_in, run_in, value_in};

use calls::answers::{BYTE, WORD};

#[unsafe(no_mangle)]
pub extern "C" fn cungkalisa_number(answer: u64) -> u8
    ensures { result ≡ number_in answer }
{
    (answer % BYTE) as u8
}

#[unsafe(no_mangle)]
pub extern "C" fn cungkalisa_run(answer: u64) -> u8
    ensures { result ≡ run_in answer }
{
    (answer / BYTE % BYTE) as u8
}

#[unsafe(no_mangle)]
pub extern "C" fn cungkalisa_value(answer: u64) -> u32
    ensures { result ≡ value_in answer }
{
    (answer / WORD) as u32
}
