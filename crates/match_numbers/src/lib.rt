// Matching with its answer as numbers, for the C boundary.
#![tactic(auto)]

ghost use Rattle.scope.specs.Operations.Match.{Matches};

use answers::Numbered;

// Matches, returns the number of the answer, and writes its place.
pub fn match_text(room: &[u8], text: &[u8], place: &mut usize) -> u8
    ensures { Matches room.now text.now result place.new }
{
    let matched = matching::match_text(room, text);
    *place = matched.value();
    matched.number()
}
