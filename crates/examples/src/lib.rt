// Worked rows, shown of the definitions and run through the code.
#![tactic(auto)]

ghost use Rattle.rule.specs.Variance.{least_variance};
ghost use Rattle.rule.specs.Range.{least_range};
ghost use Rattle.examples.specs.Rows.{FoldedRows, SelectedRows, OtherLevels};
ghost use Rattle.examples.specs.Sheets.{Listed};

pub mod kinds;

// The definitions of the steps give the rows that were worked out by hand.
pub fn worked_rows()
    ensures variance { FoldedRows least_variance }
    ensures range { FoldedRows least_range }
    ensures selected { SelectedRows }
    ensures others { OtherLevels }
{}

// The definitions of the sheet give the listing of the shipped recipe.
pub fn worked_sheet()
    ensures { Listed }
{}

#[cfg(test)]
mod tests {
    use level::side::Side;
    use level::{Labels, Level, Pair, same_level};
    use recipe::element::Element;
    use rule::{LeastRange, LeastVariance};
    use std::test::Fail;
    use steps::extent::Extent;
    use steps::morphology::{filter, fold};
    use steps::planes::{average_planes, bound_planes, negate};
    use steps::select::select;
    use steps::way::{Joins, Meets};

    const FOUR: Extent = Extent {
        width: 4,
        height: 1,
    };

    const SEVEN: Extent = Extent {
        width: 7,
        height: 1,
    };

    const FIVE: Extent = Extent {
        width: 5,
        height: 1,
    };

    const ONE: Extent = Extent {
        width: 1,
        height: 1,
    };

    #[test]
    fn folds_and_means(rt: HostRuntime) -> Result<(), Fail> {
        let row = Element::new(0x3800).ok_or("an element")?;
        let mut block = [3u8, 9, 2, 7, 3, 9, 2, 7, 0, 0, 0, 0, 1, 2];
        fold::<_, Meets>(&mut block, 0, 8, FOUR, row);
        fold::<_, Joins>(&mut block, 4, 8, FOUR, row);
        assert!(rt; block.starts_with(&[3, 2, 2, 2, 9, 9, 9, 7]));
        assert!(rt; block[12..].starts_with(&[1, 2]));
        let mut high = block;
        average_planes(&mut block, 0, 4, FOUR, Side::Low);
        average_planes(&mut high, 0, 4, FOUR, Side::High);
        assert!(rt; block.starts_with(&[6, 5, 5, 4, 9, 9, 9, 7]));
        assert!(rt; high.starts_with(&[6, 6, 6, 5, 9, 9, 9, 7]));
        Ok(())
    }

    #[test]
    fn filters(rt: HostRuntime) -> Result<(), Fail> {
        let row = Element::new(0x3800).ok_or("an element")?;
        let mut block = [3u8, 9, 2, 7, 3, 9, 2, 7, 0, 0, 0, 0];
        filter::<_, Meets>(&mut block, 0, 8, FOUR, row);
        filter::<_, Joins>(&mut block, 4, 8, FOUR, row);
        assert!(rt; block.starts_with(&[3, 3, 2, 2, 9, 9, 7, 7]));
        Ok(())
    }

    #[test]
    fn peak(rt: HostRuntime) -> Result<(), Fail> {
        let row = Element::new(0x3800).ok_or("an element")?;
        let mut block = [
            4u8, 4, 4, 10, 4, 4, 4, 4, 4, 4, 10, 4, 4, 4, 0, 0, 0, 0, 0, 0, 0,
        ];
        filter::<_, Meets>(&mut block, 0, 14, SEVEN, row);
        filter::<_, Joins>(&mut block, 7, 14, SEVEN, row);
        let mut smooth = block;
        average_planes(&mut block, 0, 7, SEVEN, Side::Low);
        assert!(rt; block.starts_with(&[4, 4, 4, 7, 4, 4, 4]));
        filter::<_, Joins>(&mut smooth, 0, 14, SEVEN, row);
        filter::<_, Meets>(&mut smooth, 7, 14, SEVEN, row);
        average_planes(&mut smooth, 0, 7, SEVEN, Side::High);
        assert!(rt; smooth.starts_with(&[4, 4, 4, 4, 4, 4, 4]));
        Ok(())
    }

    #[test]
    fn border(rt: HostRuntime) -> Result<(), Fail> {
        let right = Element::new(0x2000).ok_or("an element")?;
        let two = Extent {
            width: 2,
            height: 1,
        };
        let mut block = [5u8, 6, 5, 6, 0, 0];
        fold::<_, Meets>(&mut block, 0, 4, two, right);
        fold::<_, Joins>(&mut block, 2, 4, two, right);
        assert!(rt; block.starts_with(&[6, 255, 6, 0]));
        let mut single = [9u8, 9, 0];
        filter::<_, Meets>(&mut single, 0, 2, ONE, right);
        filter::<_, Joins>(&mut single, 1, 2, ONE, right);
        assert!(rt; single.starts_with(&[0, 255]));
        Ok(())
    }

    #[test]
    fn selects(rt: HostRuntime) -> Result<(), Fail> {
        let row = Element::new(0x3800).ok_or("an element")?;
        let mut block = [0u8, 0, 10, 20, 20, 0, 0, 10, 20, 20, 0, 0, 0, 0, 0];
        let mut range = block;
        select::<u8, LeastVariance>(&mut block, 0, 10, FIVE, row, Side::Low);
        select::<u8, LeastVariance>(&mut block, 5, 10, FIVE, row, Side::High);
        assert!(rt; block.starts_with(&[0, 0, 3, 20, 20, 0, 0, 17, 20, 20]));
        select::<u8, LeastRange>(&mut range, 0, 10, FIVE, row, Side::Low);
        select::<u8, LeastRange>(&mut range, 5, 10, FIVE, row, Side::High);
        assert!(rt; range.starts_with(&[0, 0, 5, 20, 20, 0, 0, 15, 20, 20]));
        Ok(())
    }

    #[test]
    fn windows(rt: HostRuntime) -> Result<(), Fail> {
        let row = Element::new(0x3800).ok_or("an element")?;
        let right = Element::new(0x3000).ok_or("an element")?;
        let mut three = [0u8, 4, 5, 0, 0, 0];
        select::<u8, LeastVariance>(
            &mut three,
            0,
            3,
            Extent {
                width: 3,
                height: 1,
            },
            row,
            Side::Low,
        );
        assert!(rt; three.starts_with(&[2, 4, 4]));
        let mut four = [0u8, 5, 5, 9, 0, 0, 0, 0];
        select::<u8, LeastVariance>(&mut four, 0, 4, FOUR, right, Side::Low);
        assert!(rt; four.starts_with(&[0, 5, 5, 7]));
        Ok(())
    }

    #[test]
    fn masks(rt: HostRuntime) -> Result<(), Fail> {
        let gaps = Element::new(0x3400).ok_or("an element")?;
        let extent = Extent {
            width: 12,
            height: 1,
        };
        let (t, f) = (true, false);
        let mut block = [
            t, t, f, t, f, f, f, f, t, t, f, t, f, f, f, f, f, f, f, f, f, f, f, f,
        ];
        let mut other = block;
        filter::<_, Meets>(&mut block, 0, 12, extent, gaps);
        filter::<_, Joins>(&mut block, 0, 12, extent, gaps);
        assert!(rt; block[0] & block[1] & block[2] & block[3] & !block[4] & !block[5]);
        assert!(rt; block[6] & !block[7] & block[8] & block[9] & block[10] & block[11]);
        filter::<_, Joins>(&mut other, 0, 12, extent, gaps);
        filter::<_, Meets>(&mut other, 0, 12, extent, gaps);
        assert!(rt; other[0] & other[1] & other[2] & other[3] & !other[4] & !other[5]);
        assert!(rt; !other[6] & !other[7] & other[8] & other[9] & other[10] & other[11]);
        Ok(())
    }

    #[test]
    fn other_kinds(rt: HostRuntime) {
        let mut heights = [-3i16, 2, -3, 2];
        average_planes(&mut heights, 0, 1, ONE, Side::Low);
        average_planes(&mut heights, 2, 3, ONE, Side::High);
        assert!(rt; heights[0] == -1 && heights[2] == 0);
        assert!(rt; i16::MIN.negation() == i16::MAX && i16::MAX.negation() == i16::MIN);
        let a = Labels { flags: 0x00F0 };
        let b = Labels { flags: 0x0033 };
        let mut labels = [a, b, a, b];
        bound_planes::<Labels, Meets>(&mut labels, 0, 1, ONE);
        bound_planes::<Labels, Joins>(&mut labels, 2, 3, ONE);
        assert!(rt; labels[0].flags == 0x0030 && labels[2].flags == 0x00F3);
        negate(&mut labels, 2, ONE);
        assert!(rt; labels[2].flags == 0x0F0C);
        assert!(rt;
            Labels { flags: 0x8001 }.agrees(Labels { flags: 0x4001 }),
            "camera flags"
        );
    }

    #[test]
    fn pairs(rt: HostRuntime) -> Result<(), Fail> {
        let right = Element::new(0x3000).ok_or("an element")?;
        let two = Extent {
            width: 2,
            height: 1,
        };
        let left = Pair {
            first: 5u8,
            second: -7i16,
        };
        let mut block = [
            left,
            Pair {
                first: 6,
                second: -8,
            },
            left,
            left,
        ];
        fold::<_, Meets>(&mut block, 0, 2, two, right);
        assert!(rt; block[0].first == 5 && block[0].second == -8);
        assert!(rt; block[1].first == 6 && block[1].second == -8);
        Ok(())
    }

    #[test]
    fn pairs_of_pairs(rt: HostRuntime) {
        let a = Pair {
            first: Pair {
                first: 3u8,
                second: Labels { flags: 0x00F0 },
            },
            second: -5i16,
        };
        let b = Pair {
            first: Pair {
                first: 9u8,
                second: Labels { flags: 0x0033 },
            },
            second: -7i16,
        };
        let low = a.meet(b);
        assert!(rt; low.first.first == 3 && low.first.second.flags == 0x0030 && low.second == -7);
        assert!(rt; same_level(low.negation(), a.negation().join(b.negation())));
    }
}
