// The bounds of a step's moves: a segment that lies beyond them is told by comparisons alone, for all points at once.
ghost use Rattle.std.specs.Prelude.{◌≡◌, length};
ghost use Rattle.kerb_line.specs.Inner.{TakesIn, TakesAllIn, Enclosed, beyond as beyond_z};

use plane::Vec2;

#[derive(Clone, Copy)]
pub(crate) struct Bounds {
    pub west: i64,
    pub east: i64,
    pub south: i64,
    pub north: i64,
}

// Bounds that hold no place yet.
const NOWHERE: Bounds = Bounds {
    west: i64::MAX,
    east: i64::MIN,
    south: i64::MAX,
    north: i64::MIN,
};

impl Bounds {
    // The bounds widened to take in a place.
    fn widened(self, v: Vec2) -> Bounds
        ensures { TakesIn self v result }
    {
        Bounds {
            west: self.west.min(v.x),
            east: self.east.max(v.x),
            south: self.south.min(v.y),
            north: self.north.max(v.y),
        }
    }

    // The bounds widened to take in all of these places.
    fn around(self, places: &[Vec2]) -> Bounds
        ensures { TakesAllIn self places.now (length places.now) result }
    {
        let mut bounds = self;
        for place in places {
            bounds = bounds.widened(*place);
        }
        bounds
    }

    // Bounds that hold all points, before a step and after it.
    // Kept: two slices, for the reason given in `lowest_touch`.
    pub(crate) fn of_moves(olds: &[Vec2], news: &[Vec2]) -> Bounds
        ensures { Enclosed result olds.now news.now }
    {
        NOWHERE.around(olds).around(news)
    }

    // Whether the segment from v to w lies wholly to one side of the bounds.
    #[tactic(auto, unfolding(crate::specs::Inner::beyond))]
    pub(crate) fn beyond(self, v: Vec2, w: Vec2) -> bool
        ensures { result ≡ beyond_z self v w }
    {
        ((v.x < self.west) & (w.x < self.west))
            | ((self.east < v.x) & (self.east < w.x))
            | ((v.y < self.south) & (w.y < self.south))
            | ((self.north < v.y) & (self.north < w.y))
    }
}
