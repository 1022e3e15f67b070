// The two ways to bound levels, as types, so that a loop over levels is compiled for each.
ghost use Rattle.std.specs.Prelude.{◌≡◌, refl};
ghost use Rattle.level.specs.declared.side.Side.{Side as Sides};
ghost use Rattle.level.specs.declared.side.Side.TheVariants.{Low, High};
ghost use Rattle.level.specs.Sides.{opposite};
ghost use Rattle.steps.specs.Images.{bound, unbounded};

use level::Level;

// Down to the meet, or up to the join.
pub trait Way {
    ghost side: { Sides };

    // The bound of no level.
    fn start<L: Level>() -> L
        ensures { L.Level.meaning result ≡ unbounded L.Level.kind side };

    // The bound of two levels.
    fn both<L: Level>(a: L, b: L) -> L
        ensures { L.Level.meaning result ≡ bound L.Level.kind side (L.Level.meaning a) (L.Level.meaning b) };
}

// A way and the one that goes against it.
pub trait TwoWay: Way {
    type Back: Way;

    ghost against: { Self.Back.Way.side ≡ opposite Self.side };
}

pub struct Meets;

impl Way for Meets {
    ghost side = { Low };

    fn start<L: Level>() -> L {
        L::greatest()
    }

    fn both<L: Level>(a: L, b: L) -> L {
        a.meet(b)
    }
}

impl TwoWay for Meets {
    type Back = Joins;

    ghost against = { refl };
}

pub struct Joins;

impl Way for Joins {
    ghost side = { High };

    fn start<L: Level>() -> L {
        L::least()
    }

    fn both<L: Level>(a: L, b: L) -> L {
        a.join(b)
    }
}

impl TwoWay for Joins {
    type Back = Meets;

    ghost against = { refl };
}
