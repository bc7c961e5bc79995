// Comparing with its answer as numbers, for the C boundary.
#![tactic(auto)]

ghost use Rattle.scope.specs.Operations.Compare.{Compares};

use answers::Numbered;

// Compares, returns the number of the answer, and writes its length and rounds.
pub fn compare(
    left: &[u8],
    right: &[u8],
    word: &mut [u8],
    bytes: &mut [u8],
    words: &mut [u64],
    length: &mut usize,
    rounds: &mut usize,
) -> u8
    ensures { Compares left.now right.now word.old word.new bytes.old bytes.new words.old words.new result length.new rounds.new }
{
    let compared = compare::compare(left, right, word, bytes, words);
    *length = compared.value();
    *rounds = answers::rounds_of(compared);
    compared.number()
}
