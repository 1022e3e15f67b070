// What a selecting rule sees of a window, and what it says of one.
ghost use Rattle.rule.specs.Ranks.{Made};
ghost use Rattle.std.specs.Prelude.{◌≡◌, ◌*◌, ◌^◌, ◌≤◌};

// The five numbers of a window of 1 to 25 ranks, each at most 65535. That some ranks have them, `made`, is what
// the laws of a rule ask for. The bounds follow from it, and stand here for arithmetic.
#[derive(Clone, Copy)]
pub struct Window {
    pub count: u64,
    pub sum: u64,
    pub squares: u64,
    pub lowest: u64,
    pub highest: u64,
    ghost made: { Made (record { count = count; sum = sum; squares = squares; lowest = lowest; highest = highest }) },
    ghost some: { 1 ≤ count },
    ghost few: { count ≤ 25 },
    ghost ordered: { lowest ≤ highest },
    ghost ranked: { highest ≤ 65535 },
    ghost summed: { sum ≤ count * 65535 },
    ghost squared: { squares ≤ count * (65535 * 65535) },
    ghost spread: { sum * sum ≤ count * squares },
}

impl Window {
    ghost use Rattle.rule.specs.Range.{range as reached, middle as halfway};
    ghost use Rattle.rule.specs.Variance.{variation as varied, mean as meant};
    ghost use Rattle.rule.specs.Views.{seen, fraction};

    // How far the ranks reach, from the lowest to the highest.
    pub fn range(self) -> u64
        ensures is { result ≡ reached (seen self) }
        ensures small { result ≤ 65535 }
    {
        self.highest - self.lowest
    }

    // The middle of the lowest and the highest rank.
    pub fn middle(self) -> Ratio
        ensures { fraction result ≡ halfway (seen self) }
    {
        Ratio {
            num: self.lowest + self.highest,
            den: 2,
        }
    }

    // The mean of the ranks.
    pub fn mean(self) -> Ratio
        ensures { fraction result ≡ meant (seen self) }
    {
        Ratio {
            num: self.sum,
            den: self.count,
        }
    }

    // The variance times the count's square.
    pub fn variation(self) -> u64
        ensures is { result ≡ varied (seen self) }
        ensures small { result ≤ 2 ^ 42 }
    {
        self.count * self.squares - self.sum * self.sum
    }
}

// The fraction num / den, from 0 to 65535.
#[derive(Clone, Copy)]
pub struct Ratio {
    pub num: u64,
    pub den: u64,
    ghost some: { 1 ≤ den },
    ghost few: { den ≤ 1000 },
    ghost ranked: { num ≤ 65535 * den },
}
