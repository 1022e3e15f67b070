// Words of a text.
ghost use Rattle.std.specs.Prelude.{◌≡◌, IsUtf8};
ghost use Rattle.spelling.specs.Words.{Cut, WordEnds, at_spaces, at_white_space, front, further, trimmed as without_ends};

// How the first word of a text parts from what stands after it.
pub trait Parting {
    ghost cut: { Cut };

    // The first word, and what stands after it.
    fn parted(text: &str) -> (&str, &str)
        ensures word { result.0.now ≡ cut.front text.now }
        ensures rest { result.1.now ≡ cut.further text.now };
}

// Words part at any white space.
pub struct WhiteSpace;

impl Parting for WhiteSpace {
    ghost cut = { at_white_space };

    fn parted(text: &str) -> (&str, &str) {
        parted(text)
    }
}

// Words part at spaces alone.
pub struct Spaces;

impl Parting for Spaces {
    ghost cut = { at_spaces };

    fn parted(text: &str) -> (&str, &str) {
        match text.split_once(' ') {
            Some((word, rest)) => (word, trimmed(rest)),
            None => (text, ""),
        }
    }
}

// The text without the white space at its two ends.
pub fn trimmed(text: &str) -> &str
    ensures { result.now ≡ without_ends text.now }
{
    text.trim_ascii()
}

// The bytes before the first white space, and what stands after them and the white space.
pub fn parted(text: &str) -> (&str, &str)
    ensures word { result.0.now ≡ front text.now }
    ensures rest { result.1.now ≡ further text.now }
    ensures utf8 { IsUtf8 result.1.now }
{
    let (word, rest) = text.split_at(word_end(text.as_bytes()));
    (word, rest.trim_ascii_start())
}

// Where the first word ends.
fn word_end(text: &[u8]) -> usize
    ensures { WordEnds text.now result }
{
    text.iter()
        .position(u8::is_ascii_whitespace)
        .unwrap_or(text.len())
}
