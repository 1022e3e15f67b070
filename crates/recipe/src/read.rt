// The record reader: eight bytes to a step.
ghost use Rattle.std.specs.Prelude.{◌≡◌, true, false, IfOk, IfErr};
ghost use Rattle.recipe.specs.Elements.{is_element};
ghost use Rattle.recipe.specs.Kinds.{number_of};
ghost use Rattle.recipe.specs.Plans.{element as mask_of, padded, reads, kind as kind_of};
ghost use Rattle.recipe.specs.Answers.{step_answer};

use crate::element::Element;
use crate::fault::RecordFault;
use crate::kind::Kind;
use crate::step::Step;

// The eight bytes of a record.
#[derive(Clone, Copy)]
pub struct Record {
    pub bytes: [u8; 8],
}

impl Record {
    // Reads the record of this index: its kind, an element where the kind has one, and zeros.
    pub fn read(self, index: usize) -> Result<Step, RecordFault>
        ensures { step_answer result ≡ reads index self.bytes }
    {
        let Ok(kind) = Kind::try_from(self.bytes[0]) else {
            return Err(RecordFault::UnknownKind(index));
        };
        if !self.is_padded(kind) {
            return Err(RecordFault::NotZero(index));
        }
        match kind {
            Kind::Frame => Ok(Step::Frame),
            Kind::Negate => Ok(Step::Negate),
            Kind::Erode => Ok(Step::Erode(self.element(index)?)),
            Kind::Dilate => Ok(Step::Dilate(self.element(index)?)),
            Kind::Open => Ok(Step::Open(self.element(index)?)),
            Kind::Close => Ok(Step::Close(self.element(index)?)),
            Kind::Meet => Ok(Step::Meet),
            Kind::Join => Ok(Step::Join),
            Kind::MeanLow => Ok(Step::MeanLow),
            Kind::MeanHigh => Ok(Step::MeanHigh),
            Kind::SelectLow => Ok(Step::SelectLow(self.element(index)?)),
            Kind::SelectHigh => Ok(Step::SelectHigh(self.element(index)?)),
        }
    }

    // Bytes 1 to 4 as a number, the low byte first.
    fn mask(self) -> u32
        ensures { result ≡ mask_of self.bytes }
    {
        let [_, a, b, c, d, _, _, _] = self.bytes;
        u32::from_le_bytes([a, b, c, d])
    }

    // The element that the mask marks, in a record of this index.
    fn element(self, index: usize) -> Result<Element, RecordFault>
        ensures some { IfOk result (λ found. (is_element (mask_of self.bytes) ≡ true) × (found ≡ record { bits = mask_of self.bytes })) }
        ensures none { IfErr result (λ fault. (is_element (mask_of self.bytes) ≡ false) × (fault ≡ RecordFault.BadElement index)) }
    {
        Element::new(self.mask()).ok_or(RecordFault::BadElement(index))
    }

    // Whether the bytes that are to be zero are, in a record of this kind.
    fn is_padded(self, kind: Kind) -> bool
        requires { number_of kind ≡ kind_of self.bytes }
        ensures { result ≡ padded self.bytes }
    {
        (self.bytes[5] == 0)
            & (self.bytes[6] == 0)
            & (self.bytes[7] == 0)
            & (kind.has_element() | (self.mask() == 0))
    }
}
