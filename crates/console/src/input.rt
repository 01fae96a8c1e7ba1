// Reading a recording.
ghost use Rattle.std.specs.Prelude.{◌≡◌, take, IfOk, IfSome};

use feed::LONGEST;
use std::alloc::Allocator;
use std::io;
use std::io::Read;

// One byte more than a recording may have tells that it is too long.
const MOST: usize = LONGEST + 1;

// The front of what there is to read: all of it, where that is no longer than a recording may be.
pub fn read_input<R: Read + Drop, A: Allocator>(alloc: A, input: R) -> io::Result<Vec<u8, A>>
    ensures { IfOk result (λ file. IfSome (R.remaining input) (λ bytes. file.items ≡ take 60001 bytes)) }
{
    let mut file = Vec::with_capacity(alloc, MOST)?;
    input.take(MOST as u64).read_to_end(&mut file)?;
    Ok(file)
}
