// The C boundary: each public operation as a function of slices and numbers. A slice is a pointer and a length, as Rust passes `&[u8]`. The answer's number is
// returned, and the numbers that come with it (a place, a length, rounds) are written through references, as 0 where the answer has none. Nothing
// happens here: each function forwards to the one of a small crate over its operation (`compile_numbers` and so on), which takes the answer apart. The contract of
// both is the operation's own relation, with what is returned and written in the place of the answer.
#![tactic(auto)]

ghost use Rattle.scope.specs.Operations.Compare.{Compares};
ghost use Rattle.scope.specs.Operations.Compile.{Compiles};
ghost use Rattle.scope.specs.Operations.Match.{Matches};
ghost use Rattle.scope.specs.Operations.Minimise.{Minimises};
ghost use Rattle.scope.specs.Operations.Pack.{Packs};
ghost use Rattle.scope.specs.Operations.Unpack.{Unpacks};
ghost use Rattle.desk_rules.specs.Open.{Opens};
ghost use Rattle.desk_rules.specs.Press.{Presses};

// Compiling: 0 Done, 1 ROOM, 2 LONG, 3 to 6 SYNTAX, RANGE, DEPTH, POSITIONS with their place, 7 CLASSES, 8 STATES.
#[unsafe(no_mangle)]
pub extern "C" fn palgondur_compile(
    pattern: &[u8],
    room: &mut [u8],
    bytes: &mut [u8],
    words: &mut [u64],
    place: &mut usize,
) -> u8
    ensures { Compiles pattern.now room.old room.new bytes.old bytes.new words.old words.new result place.new }
{
    compile_numbers::compile(pattern, room, bytes, words, place)
}

// Minimising: 0 Done, 1 ROOM, 9 FORM.
#[unsafe(no_mangle)]
pub extern "C" fn palgondur_minimise(
    from: &[u8],
    to: &mut [u8],
    bytes: &mut [u8],
    words: &mut [u64],
) -> u8
    ensures { Minimises from.now to.old to.new bytes.old bytes.new words.old words.new result }
{
    minimise_numbers::minimise(from, to, bytes, words)
}

// Matching: 0 Accepted, 64 Dead with its place, 65 Unfinished, 1 ROOM, 9 FORM.
#[unsafe(no_mangle)]
pub extern "C" fn palgondur_match(room: &[u8], text: &[u8], place: &mut usize) -> u8
    ensures { Matches room.now text.now result place.new }
{
    match_numbers::match_text(room, text, place)
}

// Comparing: 0 Same with rounds, 66 Separated with length and rounds, 1 ROOM, 9 FORM.
#[unsafe(no_mangle)]
pub extern "C" fn palgondur_compare(
    left: &[u8],
    right: &[u8],
    word: &mut [u8],
    bytes: &mut [u8],
    words: &mut [u64],
    length: &mut usize,
    rounds: &mut usize,
) -> u8
    ensures { Compares left.now right.now word.old word.new bytes.old bytes.new words.old words.new result length.new rounds.new }
{
    compare_numbers::compare(left, right, word, bytes, words, length, rounds)
}

// Packing: 0 Done with the length of the form, 1 ROOM, 9 FORM.
#[unsafe(no_mangle)]
pub extern "C" fn palgondur_pack(
    room: &[u8],
    form: &mut [u8],
    bytes: &mut [u8],
    words: &mut [u64],
    length: &mut usize,
) -> u8
    ensures { Packs room.now form.old form.new bytes.old bytes.new words.old words.new result length.new }
{
    pack_numbers::pack(room, form, bytes, words, length)
}

// Unpacking: 0 Done, 1 ROOM, 9 FORM.
#[unsafe(no_mangle)]
pub extern "C" fn palgondur_unpack(
    form: &[u8],
    room: &mut [u8],
    bytes: &mut [u8],
    words: &mut [u64],
) -> u8
    ensures { Unpacks form.now room.old room.new bytes.old bytes.new words.old words.new result }
{
    pack_numbers::unpack(form, room, bytes, words)
}

// Opening a form of the desk: 0 Done, 1 ROOM, 9 FORM, 21 FIELDS.
#[unsafe(no_mangle)]
pub extern "C" fn palgondur_desk_open(count: usize, rooms: &[u8], form: &mut [u8]) -> u8
    ensures { Opens count rooms.now form.old form.new result }
{
    desk_numbers::open_form(count, rooms, form)
}

// A key at the desk: 0 Done, 1 ROOM, 9 FORM, 10 DEAD BYTE, 11 UNFINISHED, 12 LENGTH, 13 CLOSED.
#[unsafe(no_mangle)]
pub extern "C" fn palgondur_desk_key(rooms: &[u8], form: &mut [u8], key: u8) -> u8
    ensures { Presses rooms.now form.old form.new key result }
{
    desk_numbers::press(rooms, form, key)
}
