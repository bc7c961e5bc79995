// Packing a canonical machine into its form, and unpacking a form into the machine. A form is taken only if it is that of a canonical room, so each undoes the other.
#![tactic(auto)]

ghost use Rattle.std.specs.Prelude.{◌≤◌, length};
ghost use Rattle.answers.specs.Numbers.{packed_number, packed_length, unpacked_number};
ghost use Rattle.scope.specs.Limits.{scratch_words, room_bytes};
ghost use Rattle.scope.specs.Machines.Room.{SoundTable};
ghost use Rattle.scope.specs.Machines.Canonical.{CanonicalTable, Canonical};
ghost use Rattle.scope.specs.Operations.Buffers.{TailKept};
ghost use Rattle.scope.specs.Operations.Pack.{Packs};
ghost use Rattle.scope.specs.Operations.Unpack.{Unpacks};
ghost use Rattle.buffers.specs.Stored.{Decides};
ghost use Rattle.packing.specs.Adopted.{Adopted};

use answers::Refusal;
use room::Table;
use scope::Machine;

// Whether a room is canonical.
fn is_canonical(room: &[u8], words: &mut [u64]) -> bool
    requires { scratch_words ≤ length words.old }
    ensures { Decides result (Canonical room.now) × TailKept scratch_words words.old words.new }
{
    soundness::is_sound(room) && smallest::is_canonical(&Table::new(room), words)
}

// Packing: writes the form of a canonical room to the start of the output, and answers how many bytes it has.
pub fn pack(
    room: &[u8],
    form: &mut [u8],
    bytes: &mut [u8],
    words: &mut [u64],
) -> Result<usize, Refusal>
    ensures { Packs room.now form.old form.new bytes.old bytes.new words.old words.new (packed_number result) (packed_length result) }
{
    if !buffers::is_lent(room, bytes, words) {
        return Err(Refusal::Room);
    }
    let canonical = is_canonical(room, words);
    buffers::clear(bytes, words);
    if !canonical {
        return Err(Refusal::Form);
    }
    let table = Table::new(room);
    if form.len() < packed_bits::form_length(&table) {
        return Err(Refusal::Room);
    }
    Ok(put_packed::pack_fields(&table, form))
}

// Whether the table of an image is sound and canonical: an image has no ways home, so its table alone is judged.
fn is_canonical_table(image: &[u8], words: &mut [u64]) -> bool
    requires { scratch_words ≤ length words.old }
    ensures { Decides result (SoundTable image.now × CanonicalTable image.now) × TailKept scratch_words words.old words.new }
{
    room::is_table(image) && smallest::is_canonical(&Table::new(image), words)
}

// Copies the table of an image into a room, and writes its ways home, which a form does not carry.
fn adopt(image: &[u8], room: &mut [u8])
    requires { SoundTable image.now × (room_bytes ≤ length room.old) }
    ensures { Adopted image.now room.old room.new }
{
    buffers::copy(image, room, Machine::WAYS_AT);
    way_writing::write_ways(room);
}

// Unpacking: writes the canonical room whose form the bytes are. The room is made in the scratch, and judged there.
pub fn unpack(
    form: &[u8],
    room: &mut [u8],
    bytes: &mut [u8],
    words: &mut [u64],
) -> Result<(), Refusal>
    ensures { Unpacks form.now room.old room.new bytes.old bytes.new words.old words.new (unpacked_number result) }
{
    if !buffers::is_lent(room, bytes, words) {
        return Err(Refusal::Room);
    }
    if !take_packed::unpack_fields(form, bytes) || !is_canonical_table(bytes, words) {
        buffers::clear(bytes, words);
        return Err(Refusal::Form);
    }
    adopt(bytes, room);
    buffers::clear(bytes, words);
    Ok(())
}
