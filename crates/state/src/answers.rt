// Whether a retirement asks the branch cache.
ghost use Rattle.std.specs.Prelude.{◌≡◌};
ghost use Rattle.state.specs.Events.{consults};

use class_word::F_BRANCH;
use window::{Controls, Instruction};

// A branch does, with EBC on and its fetch cached.
pub fn consulted(i: Instruction, k: Controls) -> bool
    ensures { result ≡ consults i k }
{
    i.word.has(F_BRANCH) && k.ebc && k.cached
}
