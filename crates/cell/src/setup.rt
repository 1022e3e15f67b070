// What a cell is put together from.
use level::Level;
use rule::Rule;
use std::marker::PhantomData;

// A kind of level and a selecting rule.
pub trait Setup {
    type Pixel: Level;

    type Selector: Rule;
}

// Any kind of level with any rule.
pub struct Of<L, R> {
    kind: PhantomData<L>,
    rule: PhantomData<R>,
}

impl<L: Level, R: Rule> Setup for Of<L, R> {
    type Pixel = L;

    type Selector = R;
}
