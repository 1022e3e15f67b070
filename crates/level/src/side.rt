// The two dual forms in which most of morphology comes.
ghost use Rattle.std.specs.Prelude.{◌≡◌};
ghost use Rattle.level.specs.Sides.{opposite as other};

// Low: meet, erosion, opening, halves rounded down. High: join, dilation, closing, halves rounded up.
#[derive(Clone, Copy, PartialEq, Eq)]
pub enum Side {
    Low,
    High,
}

impl Side {
    // The dual form.
    pub fn opposite(self) -> Side
        ensures { result ≡ other self }
    {
        match self {
            Side::Low => Side::High,
            Side::High => Side::Low,
        }
    }
}
