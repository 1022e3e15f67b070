// The kinds of records: one for each step, numbered 1 to 12.
ghost use Rattle.std.specs.Prelude.{◌≡◌};
ghost use Rattle.recipe.specs.Kinds.{Decodes, number_of, mirror_kind};
ghost use Rattle.recipe.specs.Plans.{has_element as elemental};

// What step a record asks for, before its element is read.
#[derive(Clone, Copy, PartialEq, Eq)]
pub enum Kind {
    Frame,
    Negate,
    Erode,
    Dilate,
    Open,
    Close,
    Meet,
    Join,
    MeanLow,
    MeanHigh,
    SelectLow,
    SelectHigh,
}

// The number of no kind.
#[derive(Clone, Copy, PartialEq, Eq)]
pub struct UnknownKind(pub u8);

impl TryFrom<u8> for Kind {
    type Error = UnknownKind;

    ghost try_from_gives = { Decodes };

    fn try_from(number: u8) -> Result<Kind, UnknownKind> {
        match number {
            1 => Ok(Kind::Frame),
            2 => Ok(Kind::Negate),
            3 => Ok(Kind::Erode),
            4 => Ok(Kind::Dilate),
            5 => Ok(Kind::Open),
            6 => Ok(Kind::Close),
            7 => Ok(Kind::Meet),
            8 => Ok(Kind::Join),
            9 => Ok(Kind::MeanLow),
            10 => Ok(Kind::MeanHigh),
            11 => Ok(Kind::SelectLow),
            12 => Ok(Kind::SelectHigh),
            _ => Err(UnknownKind(number)),
        }
    }
}

impl From<Kind> for u8 {
    ghost from_gives = { λ kind number. number ≡ number_of kind };

    fn from(kind: Kind) -> u8 {
        match kind {
            Kind::Frame => 1,
            Kind::Negate => 2,
            Kind::Erode => 3,
            Kind::Dilate => 4,
            Kind::Open => 5,
            Kind::Close => 6,
            Kind::Meet => 7,
            Kind::Join => 8,
            Kind::MeanLow => 9,
            Kind::MeanHigh => 10,
            Kind::SelectLow => 11,
            Kind::SelectHigh => 12,
        }
    }
}

impl Kind {
    // Whether records of this kind have an element.
    pub fn has_element(self) -> bool
        ensures { result ≡ elemental (number_of self) }
    {
        matches!(
            self,
            Kind::Erode
                | Kind::Dilate
                | Kind::Open
                | Kind::Close
                | Kind::SelectLow
                | Kind::SelectHigh
        )
    }

    // The kind of the dual step; the frame and negation are their own.
    pub fn mirrored(self) -> Kind
        ensures { result ≡ mirror_kind self }
    {
        match self {
            Kind::Frame => Kind::Frame,
            Kind::Negate => Kind::Negate,
            Kind::Erode => Kind::Dilate,
            Kind::Dilate => Kind::Erode,
            Kind::Open => Kind::Close,
            Kind::Close => Kind::Open,
            Kind::Meet => Kind::Join,
            Kind::Join => Kind::Meet,
            Kind::MeanLow => Kind::MeanHigh,
            Kind::MeanHigh => Kind::MeanLow,
            Kind::SelectLow => Kind::SelectHigh,
            Kind::SelectHigh => Kind::SelectLow,
        }
    }
}
