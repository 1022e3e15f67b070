//! Kinds of level put to use: code that serves any kind, and labels.
ghost use Rattle.std.specs.Prelude.{◌≡◌, ◌+◌, ◌/◌, true};
ghost use Rattle.level.specs.Delivered.{labels, label, Clear};

use level::{Labels, Level};

/// The level at the mean of two ranks, a half going down; any level where the kind has no ranks.
pub fn mean_low<L: Level>(a: L, b: L) -> L
    ensures { L.Level.kind.ranked ≡ true → L.Level.meaning result ≡ L.Level.kind.at ((L.Level.kind.rank (L.Level.meaning a) + L.Level.kind.rank (L.Level.meaning b)) / 2) }
{
    let sum = u32::from(a.rank()) + u32::from(b.rank());
    L::at((sum / 2) as u16)
}

/// The labels that only the first shows, the camera's flags at 0.
pub fn only_first(a: Labels, b: Labels) -> Labels
    ensures meant { label result.flags ≡ labels.meet (label a.flags) (labels.negation (label b.flags)) }
    ensures clear { Clear result.flags }
{
    a.meet(b.negation())
}

#[cfg(test)]
mod tests {
    use super::*;

    fn labels(flags: u16) -> Labels
        ensures { result.flags ≡ flags }
    {
        Labels { flags }
    }

    #[test]
    fn labels_as_worked(rt: HostRuntime) {
        assert_eq!(rt; labels(0x00f0).meet(labels(0x0033)).flags, 0x0030);
        assert_eq!(rt; labels(0x00f0).join(labels(0x0033)).flags, 0x00f3);
        assert_eq!(rt; labels(0x00f3).negation().flags, 0x0f0c);
        assert!(rt; labels(0x8001).agrees(labels(0x4001)));
    }

    #[test]
    fn heights_at_both_ends(rt: HostRuntime) {
        assert_eq!(rt; i16::MIN.negation(), i16::MAX);
        assert_eq!(rt; i16::MAX.negation(), i16::MIN);
        assert_eq!(rt; mean_low(-3i16, 2i16), -1);
    }
}
