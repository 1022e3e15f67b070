// The delivered kinds as text.
ghost use Rattle.std.specs.Prelude.{◌≡◌, [], ◌∷◌, ◌++◌, if◌then◌else◌, decimal};
ghost use Rattle.std.specs.Fmt.{signed_decimal};
ghost use Rattle.spelling.specs.Spellings.{Decimal, Flagged, Joined, Signed};
ghost use Rattle.spelling.specs.Texts.{four_digits};

use crate::hex;
use crate::written::Written;
use level::{Labels, Level, Pair};
use std::alloc::{AllocError, Global};

// Grey levels in decimal.
impl Written for u8 {
    ghost text = { decimal };

    ghost spells = { Decimal 8 };

    fn read(word: &str) -> Option<u8> {
        word.parse::<u8>().ok()
    }

    fn show(self, heap: Global) -> Result<String, AllocError> {
        format!(in heap; "{self}")
    }
}

// Heights in decimal, with a minus below 0.
impl Written for i16 {
    ghost text = { signed_decimal };

    ghost spells = { Signed };

    fn read(word: &str) -> Option<i16> {
        word.parse::<i16>().ok()
    }

    fn show(self, heap: Global) -> Result<String, AllocError> {
        format!(in heap; "{self}")
    }
}

// Masks as 0 and 1.
impl Written for bool {
    ghost text = { λ x. (if x then 49 ∷ [] else 48 ∷ []) };

    ghost spells = { λ t x. t ≡ (if x then 49 ∷ [] else 48 ∷ []) };

    fn read(word: &str) -> Option<bool> {
        match word {
            "0" => Some(false),
            "1" => Some(true),
            _ => None,
        }
    }

    fn show(self, heap: Global) -> Result<String, AllocError> {
        String::from_str(heap, if self { "1" } else { "0" })
    }
}

// Labels as four hexadecimal digits.
impl Written for Labels {
    ghost text = { λ x. four_digits x.flags };

    ghost spells = { λ t x. Flagged t x.flags };

    fn read(word: &str) -> Option<Labels> {
        let [a, b, c, d] = *word.as_bytes() else {
            return None;
        };
        let high = hex::byte(a, b)?;
        let low = hex::byte(c, d)?;
        Some(Labels {
            flags: u16::from_be_bytes([high, low]),
        })
    }

    fn show(self, heap: Global) -> Result<String, AllocError> {
        let flags = self.flags;
        format!(in heap; "{flags:04X}")
    }
}

// Pairs as their two parts, joined by a slash.
impl<A: Written, B: Written> Written for Pair<A, B> {
    ghost text = { λ x. A.Written.text x.first ++ 47 ∷ B.Written.text x.second };

    ghost spells = { λ t x. Joined A.Written.spells B.Written.spells t x.first x.second };

    fn read(word: &str) -> Option<Pair<A, B>> {
        let (first, second) = word.split_once('/')?;
        Some(Pair {
            first: A::read(first)?,
            second: B::read(second)?,
        })
    }

    fn show(self, heap: Global) -> Result<String, AllocError> {
        let first = self.first.show(heap)?;
        let second = self.second.show(heap)?;
        format!(in heap; "{first}/{second}")
    }
}
