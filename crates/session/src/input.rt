// What is read.
ghost use Rattle.std.specs.Prelude.{◌≡◌, ◌≤◌, true, length, take, IfSome};

use std::io::Read;

// How many bytes came, and whether no read failed. A read that fails leaves what came before it, so this is no Result.
#[derive(Clone, Copy)]
pub struct Came {
    pub length: usize,
    pub whole: bool,
}

// Reads until the bytes are full, the input ends or a read fails.
pub fn read_full<R: Read>(from: &mut R, bytes: &mut [u8]) -> Came
    ensures within { result.length ≤ length bytes.new }
    ensures front { IfSome (R.remaining from.old) (λ given. take result.length bytes.new ≡ take result.length given) }
    ensures all { result.whole ≡ true → IfSome (R.remaining from.old) (λ given. take result.length bytes.new ≡ take (length bytes.new) given) }
{
    let mut length = 0;
    let mut whole = true;
    // How far a read comes is the reader's, so that nothing is counted here.
    while length < bytes.len() {
        match from.read(&mut bytes[length..]) {
            Ok(0) => break,
            Ok(came) => length += came,
            Err(_) => {
                whole = false;
                break;
            }
        }
    }
    Came { length, whole }
}
