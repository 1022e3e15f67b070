// Where the answers to a script's lines go.
ghost use Rattle.std.specs.Prelude.{◌≡◌, ℕ, List, [], ◌++◌, IfSome, OnOk, string_bytes};

use spelling::words::{Parting, WhiteSpace};
use std::alloc::AllocError;
use std::fmt;
use std::fmt::Write;

// Something that the answers to a script's lines are told to, in order.
pub trait Teller {
    type Fault: From<AllocError>;

    // How the words of the lines part.
    type Words: Parting;

    // What telling a text makes of a teller.
    ghost tells: { Self → Self → List ℕ → Type 0 };

    // What is told in place of a line that there is no memory for.
    ghost misses: { ℕ → List ℕ → Type 0 };

    // Tells what is said.
    fn tell<D: fmt::Display + Drop>(&mut self, said: D) -> Result<(), Self::Fault>
        ensures { OnOk result (IfSome (D.Display.output said) (tells self.old self.new)) };

    // Tells that there is no memory for a line, or hands the want of it on.
    fn miss(&mut self, line: usize, want: AllocError) -> Result<(), Self::Fault>
        ensures { OnOk result ((text : List ℕ) × misses line text × tells self.old self.new text) };

    // Two texts told one after the other are one.
    ghost joins: { (x y z : Self) (first second : List ℕ) → tells x y first → tells y z second → tells x z (first ++ second) };

    // Nothing told is the empty text.
    ghost starts: { (x : Self) → tells x x [] };
}

// A text grows by what it is told; where there is no memory for a line, nothing takes the line's place.
impl Teller for String {
    ghost use Rattle.transcripts.specs.Telling.{appended, unchanged};

    type Fault = AllocError;

    type Words = WhiteSpace;

    ghost tells = { λ x y text. string_bytes y ≡ string_bytes x ++ text };

    ghost misses = { λ _ _. ⊥ };

    fn tell<D: fmt::Display + Drop>(&mut self, said: D) -> Result<(), AllocError> {
        write!(self, "{said}")
    }

    fn miss(&mut self, _line: usize, want: AllocError) -> Result<(), AllocError> {
        Err(want)
    }

    ghost joins = { λ x y z first second a b. appended (string_bytes x) (string_bytes y) (string_bytes z) first second a b };

    ghost starts = { λ x. unchanged (string_bytes x) };
}
