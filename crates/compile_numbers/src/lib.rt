// Compiling with its answer as numbers, for the C boundary.
#![tactic(auto)]

ghost use Rattle.scope.specs.Operations.Compile.{Compiles};

use answers::Numbered;

// Compiles, returns the number of the answer, and writes its place.
pub fn compile(
    pattern: &[u8],
    room: &mut [u8],
    bytes: &mut [u8],
    words: &mut [u64],
    place: &mut usize,
) -> u8
    ensures { Compiles pattern.now room.old room.new bytes.old bytes.new words.old words.new result place.new }
{
    let compiled = compile::compile(pattern, room, bytes, words);
    *place = compiled.value();
    compiled.number()
}
