// The size of an image.
ghost use Rattle.std.specs.Prelude.{◌≡◌, ◌*◌, ◌≤◌, false, MatchOption};
ghost use Rattle.steps.specs.Extents.{is_size};

// The most columns or rows that an image has.
const MOST: usize = 256;

// 1 to 256 columns and 1 to 256 rows.
#[derive(Clone, Copy)]
pub struct Extent {
    pub width: usize,
    pub height: usize,
    ghost columns: { 1 ≤ width },
    ghost narrow: { width ≤ 256 },
    ghost rows: { 1 ≤ height },
    ghost low: { height ≤ 256 },
}

impl Extent {
    // The extent of so many columns and rows; none where there are too few or too many.
    pub fn new(width: usize, height: usize) -> Option<Extent>
        ensures { MatchOption result (is_size width height ≡ false) (λ e. (e.width ≡ width) × (e.height ≡ height)) }
    {
        if width >= 1 && width <= MOST && height >= 1 && height <= MOST {
            Some(Extent { width, height })
        } else {
            None
        }
    }

    // How many places an image has.
    pub fn places(self) -> usize
        ensures value { result ≡ self.width * self.height }
        ensures few { result ≤ 65536 }
    {
        self.width * self.height
    }
}
