//! Kinds of level and a selecting rule as a line engineer brings them, and cells that run with them.
#![tactic(auto)]

pub mod confidences;
pub mod depths;
pub mod most;
pub mod narrow;
pub mod promises;
pub mod runs;
pub mod setups;
pub mod unfair;

#[cfg(test)]
mod tests {
    use crate::confidences::Confidence;
    use crate::depths::Depth;
    use crate::runs::run_once;
    use crate::setups::{Deep, Trusted};
    use level::{Level, Pair, same_level};
    use std::test::Fail;

    const NOTHING: Depth = Depth { steps: 0 };

    // Frame, select-low by the place and its neighbours left and right, frame, mean-low.
    const SELECTED: [u8; 32] = [
        1, 0, 0, 0, 0, 0, 0, 0, 11, 0, 0x38, 0, 0, 0, 0, 0, 1, 0, 0, 0, 0, 0, 0, 0, 9, 0, 0, 0, 0,
        0, 0, 0,
    ];

    // Frame, open by the same element.
    const OPENED: [u8; 16] = [1, 0, 0, 0, 0, 0, 0, 0, 5, 0, 0x38, 0, 0, 0, 0, 0];

    // Windows of 0 9 13 4: 0 9, range 9; 0 9 13, range 13; 9 13 4, range 9; 13 4, range 9. Around the second place the first
    // and the third are equally narrow, and the first has fewer ranks: 4 1/2, though 8 1/2 is nearer to 9. So the
    // selection is 4 4 8 8, and its mean with the frame 2 6 10 6. By the range alone the second would be 8.
    #[test]
    fn fewest_ranks_decide(rt: HostRuntime) {
        let frame = [
            Depth { steps: 0 },
            Depth { steps: 9 },
            Depth { steps: 13 },
            Depth { steps: 4 },
        ];
        let mut block = [NOTHING; 16];
        let mut out = [NOTHING; 4];
        assert!(rt; run_once::<Deep>(4, 1, &mut block, &SELECTED, &frame, &mut out).is_ok());
        assert_eq!(rt; out[0].steps, 2);
        assert_eq!(rt; out[1].steps, 6);
        assert_eq!(rt; out[2].steps, 10);
        assert_eq!(rt; out[3].steps, 6);
    }

    fn height(second: i16, sharp: bool, lit: bool) -> Pair<Confidence, i16> {
        Pair {
            first: Confidence { sharp, lit },
            second,
        }
    }

    // Opened by itself and its neighbours, 3 9 2 7 is 3 3 2 2, yes yes no yes is yes yes no no, and no yes yes yes stays.
    #[test]
    fn flags_open_beside_heights(rt: HostRuntime) -> Result<(), Fail> {
        let frame = [
            height(3, true, false),
            height(9, true, true),
            height(2, false, true),
            height(7, true, true),
        ];
        let mut block = [height(0, false, false); 12];
        let mut out = [height(0, false, false); 4];
        assert!(rt; run_once::<Trusted>(4, 1, &mut block, &OPENED, &frame, &mut out).is_ok());
        assert!(rt; same_level(out[0], height(3, true, false)));
        assert!(rt; same_level(out[1], height(3, true, true)));
        assert!(rt; same_level(out[2], height(2, false, true)));
        assert!(rt; same_level(out[3], height(2, false, true)));
        // Heights with flags have no ranks to select by.
        match run_once::<Trusted>(4, 1, &mut block, &SELECTED, &frame, &mut out) {
            Ok(()) => Err(Fail::new("selected without ranks")),
            Err(fault) => {
                assert_eq!(rt; fault.refusal().number, 15);
                Ok(())
            },
        }
    }

    #[test]
    fn readings_past_the_farthest(rt: HostRuntime) {
        let past = Depth { steps: 60000 };
        assert!(rt; same_level(past, Depth { steps: 4095 }));
        assert!(rt; same_level(Depth { steps: 4095 }, past));
        assert_eq!(rt; past.negation().steps, 0);
    }
}
