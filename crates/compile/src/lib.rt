// Compiling a pattern: the text is judged, read to its sets of positions, built into a machine in the scratch, and made smallest into the room.
#![tactic(auto)]

ghost use Rattle.answers.specs.Numbers.{compiled_number, compiled_place};
ghost use Rattle.scope.specs.Operations.Buffers.{Scratch, Lent};
ghost use Rattle.scope.specs.Operations.Compile.{Compiles};
ghost use Rattle.pattern.specs.PatternSets.{Faultless};
ghost use Rattle.compile.specs.CompilePasses.{ReadsText, AnswersCompile};

use answers::CompileRefusal;
use pattern::Shape;
use room::Table;
use scope::Machine;
use sets::layout;

// Reads a text that was judged faultless: its sets come into the scratch, which is made zero there before.
fn read(text: &[u8], bytes: &mut [u8], words: &mut [u64]) -> Shape
    requires { Faultless text.now × Scratch bytes.old words.old }
    ensures { ReadsText text.now bytes.old bytes.new words.old words.new result }
{
    bytes[..layout::IMAGE_AT].fill(0);
    words[..layout::READ_WORDS].fill(0);
    pattern::read(text, bytes, words)
}

// Builds the machine of a text that was judged faultless, and makes it smallest into the room. Judging answers a fault or nothing: that there is none is required.
fn build(
    text: &[u8],
    room: &mut [u8],
    bytes: &mut [u8],
    words: &mut [u64],
) -> Result<(), CompileRefusal>
    requires { Faultless text.now × Lent room.old bytes.old words.old }
    ensures { AnswersCompile text.now room.old room.new bytes.old bytes.new words.old words.new (compiled_number result) (compiled_place result) }
{
    let shape = read(text, bytes, words);
    determinise::build(bytes, words, shape.size, shape.last, shape.null)?;
    smallest::smallest(&Table::new(&bytes[layout::IMAGE_AT..]), room, words);
    Ok(())
}

// Judges the text, and builds its machine if it is faultless.
fn answer(
    text: &[u8],
    room: &mut [u8],
    bytes: &mut [u8],
    words: &mut [u64],
) -> Result<(), CompileRefusal>
    requires { Lent room.old bytes.old words.old }
    ensures { AnswersCompile text.now room.old room.new bytes.old bytes.new words.old words.new (compiled_number result) (compiled_place result) }
{
    if text.len() > Machine::PATTERN {
        return Err(CompileRefusal::Long);
    }
    judge::judge(text)?;
    build(text, room, bytes, words)
}

// Compiling: writes the canonical machine of a pattern into a room, or refuses the pattern with its place.
pub fn compile(
    text: &[u8],
    room: &mut [u8],
    bytes: &mut [u8],
    words: &mut [u64],
) -> Result<(), CompileRefusal>
    ensures { Compiles text.now room.old room.new bytes.old bytes.new words.old words.new (compiled_number result) (compiled_place result) }
{
    if !buffers::is_lent(room, bytes, words) {
        return Err(CompileRefusal::Room);
    }
    let answer = answer(text, room, bytes, words);
    buffers::clear(bytes, words);
    answer
}
