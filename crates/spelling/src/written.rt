// Levels as text.
ghost use Rattle.std.specs.Prelude.{◌≡◌, ℕ, List, IfOk, string_bytes};
ghost use Rattle.spelling.specs.Spellings.{Read};

use level::Level;
use std::alloc::{AllocError, Global};

// A kind of level that scripts can write.
pub trait Written: Level {
    // How a level is shown.
    ghost text: { Self → List ℕ };

    // Which words spell a level.
    ghost spells: { List ℕ → Self → Type 0 };

    // The level that a word spells; none where it spells none.
    fn read(word: &str) -> Option<Self>
        ensures { Read spells word.now result };

    // The level as text.
    fn show(self, heap: Global) -> Result<String, AllocError>
        ensures { IfOk result (λ s. string_bytes s ≡ text self) };
}
