// Minimising with its answer as a number, for the C boundary.
#![tactic(auto)]

ghost use Rattle.scope.specs.Operations.Minimise.{Minimises};

use answers::Numbered;

// Minimises, and returns the number of the answer.
pub fn minimise(from: &[u8], to: &mut [u8], bytes: &mut [u8], words: &mut [u64]) -> u8
    ensures { Minimises from.now to.old to.new bytes.old bytes.new words.old words.new result }
{
    smallest::minimise(from, to, bytes, words).number()
}
