// Packing and unpacking with their answers as numbers, for the C boundary.
#![tactic(auto)]

ghost use Rattle.scope.specs.Operations.Pack.{Packs};
ghost use Rattle.scope.specs.Operations.Unpack.{Unpacks};

use answers::Numbered;

// Packs, returns the number of the answer, and writes the length of the form.
pub fn pack(
    room: &[u8],
    form: &mut [u8],
    bytes: &mut [u8],
    words: &mut [u64],
    length: &mut usize,
) -> u8
    ensures { Packs room.now form.old form.new bytes.old bytes.new words.old words.new result length.new }
{
    let packed = packing::pack(room, form, bytes, words);
    *length = packed.value();
    packed.number()
}

// Unpacks, and returns the number of the answer.
pub fn unpack(form: &[u8], room: &mut [u8], bytes: &mut [u8], words: &mut [u64]) -> u8
    ensures { Unpacks form.now room.old room.new bytes.old bytes.new words.old words.new result }
{
    packing::unpack(form, room, bytes, words).number()
}
