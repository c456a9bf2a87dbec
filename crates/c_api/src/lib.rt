// A replica for C and Rust: numbers and lent slices in, one signed number out, since C has no `Option`.
#![tactic(auto)]

ghost use Rattle.c_api.specs.Signed.{CallGives, OpenGives};

use endpoint::call;
use memory::{Limits, open};

// Opens replica `me` in the first words of the memory: 0, or -1 if it is refused, and then the memory is as before.
#[unsafe(no_mangle)]
pub extern "C" fn motsvelba_open(
    mem: &mut [u64],
    replicas: usize,
    keys: usize,
    log: usize,
    waiting: usize,
    me: usize,
) -> i64
    ensures { OpenGives result (record { replicas = replicas; keys = keys; log = log; waiting = waiting }) me mem.old mem.new }
{
    let limits = Limits {
        replicas,
        keys,
        log,
        waiting,
    };
    match open(mem, limits, me) {
        Ok(_) => 0,
        Err(_) => -1,
    }
}

// The event happens, and its answer stands in the first bytes of `out`: how many they are; or -1, and nothing happens, if `out` cannot hold every answer.
#[unsafe(no_mangle)]
pub extern "C" fn motsvelba_call(mem: &mut [u64], event: &[u8], out: &mut [u8]) -> i64
    ensures { CallGives result mem.old event.now mem.new out.old out.new }
{
    match call(mem, event, out) {
        Some(n) => n as i64,
        None => -1,
    }
}
