// What the program was started with.
ghost use Rattle.std.specs.Prelude.{◌≡◌};
ghost use Rattle.ringcut.specs.Internal.{same_bytes};

use std::env::FillError;
use std::rt::Env;

// Room for an argument that matters here. One that has no room is another.
const ROOM: usize = 16;

fn is_same(a: &[u8], b: &[u8]) -> bool
    ensures { result ≡ same_bytes a.now b.now }
{
    a == b
}

// Whether there are so many arguments or more, the program's name not counted.
pub fn has_arguments(env: &impl Env, count: usize) -> bool {
    let mut argument = [0u8; ROOM];
    match env.arg(count, &mut argument) {
        Err(FillError::NotPresent) => false,
        _ => true,
    }
}

// Whether `--version` is the only argument.
pub fn asks_for_version(env: &impl Env) -> bool {
    let mut argument = [0u8; ROOM];
    match env.arg(1, &mut argument) {
        Ok(n) => is_same(&argument[..n], b"--version") && !has_arguments(env, 2),
        Err(_) => false,
    }
}
