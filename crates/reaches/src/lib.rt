// What the stations keep of the points that cross them, and where the rig is widest.
#![tactic(auto)]

ghost use Rattle.std.specs.Prelude.{◌≡◌, length};
ghost use Rattle.refusal.specs.Numbers.{as_answer};
ghost use Rattle.path.specs.Lent.{path_of};
ghost use Rattle.reaches.specs.Cells.{reach_runs, cell_at, store_cell, cleared};
ghost use Rattle.reaches.specs.Lent.{room_reaches, reached_of, SameLoans};
ghost use Rattle.reaches.specs.Crossing.{crossed_station, crossed};
ghost use Rattle.reaches.specs.Widest.{place_of, wider as wider_of, considered as considered_of, widest_among, widest_lent, widest_answer, WidestPlace};
ghost use Rattle.walk.specs.Drawn.{view};
ghost use Rattle.marks.specs.Requires.{HavePlaces};
ghost use Rattle.reaches.specs.Inner.{Room, CellLent, Searchable, Enterable, Crossable};
ghost use Rattle.reaches.specs.Far.{AtStation};

use crate::far::Spread;
use marks::Mark;
use path::{Path, Station};
use plane::Vec2;
use refusal::Fault;
use walk::Walk;

mod crossing;
mod far;

// What a station keeps: its left and right reach, and its mark.
#[derive(Clone, Copy)]
pub struct Cell {
    pub left: i32,
    pub right: i32,
    pub mark: Mark,
}

// The widest place: its station, width, left and right.
#[derive(Clone, Copy, PartialEq, Eq)]
pub struct Place {
    pub station: usize,
    pub width: i64,
    pub left: i64,
    pub right: i64,
}

// Three lent runs, one entry a station: the left and the right reach, and the mark.
#[derive(Drop)]
pub struct ReachRoom<'a> {
    pub left: &'a mut [i32],
    pub right: &'a mut [i32],
    pub marks: &'a mut [Mark],
}

// The same three runs, to be read.
#[derive(Clone, Copy)]
pub struct Reached<'a> {
    pub left: &'a [i32],
    pub right: &'a [i32],
    pub marks: &'a [Mark],
}

impl Reached<'_> {
    // What one station has kept.
    fn cell(self, i: usize) -> Cell
        requires { CellLent i (reached_of self) }
        ensures { result ≡ cell_at i (reached_of self.entry) }
    {
        Cell {
            left: self.left[i],
            right: self.right[i],
            mark: self.marks[i],
        }
    }
}

impl<'a> ReachRoom<'a> {
    // What the stations have kept, to be read.
    pub fn reached(&self) -> Reached<'_>
        ensures { reach_runs result.left.now result.right.now result.marks.now ≡ room_reaches self.now }
    {
        Reached {
            left: self.left,
            right: self.right,
            marks: self.marks,
        }
    }

    // What one station keeps from now on.
    fn store(&mut self, i: usize, c: Cell)
        requires { CellLent i (room_reaches self.old) }
        ensures loans { SameLoans self.old self.new }
        ensures stored { room_reaches self.new ≡ store_cell i c (room_reaches self.old) }
    {
        self.left[i] = c.left;
        self.right[i] = c.right;
        self.marks[i] = c.mark;
    }

    // Every station asked for, as a placement leaves it.
    pub fn clear(&mut self, asked: usize)
        requires { Room asked (room_reaches self.old) }
        ensures loans { SameLoans self.old self.new }
        ensures cleared { room_reaches self.new ≡ cleared asked (room_reaches self.old) }
    {
        let cleared = Cell {
            left: 2000000000,
            right: -2000000000,
            mark: 0,
        };
        for at in 0..asked {
            self.store(at, cleared);
        }
    }

    // A made step entered at a station that a point crosses.
    // Kept: two slices, for the reason given at `ReachRoom::cross`.
    fn enter_station(&mut self, i: usize, s: Station, olds: &[Vec2], news: &[Vec2])
        requires { Enterable i s olds.now news.now (room_reaches self.old) }
        ensures loans { SameLoans self.old self.new }
        ensures entered { room_reaches self.new ≡ crossed_station i s olds.now news.now (room_reaches self.old) }
    {
        let cell = self.reached().cell(i);
        self.store(i, crossing::crossed_by_all(s, olds, news, cell));
    }

    // A made step at one station, which is not written where no point crosses it.
    // Kept: two slices, for the reason given at `ReachRoom::cross`.
    fn cross_station(&mut self, i: usize, s: Station, spread: Spread, olds: &[Vec2], news: &[Vec2])
        requires { AtStation i s spread olds.now news.now (room_reaches self.old) }
        ensures loans { SameLoans self.old self.new }
        ensures crossed { room_reaches self.new ≡ crossed_station i s olds.now news.now (room_reaches self.old) }
    {
        if !spread.misses(s) && crossing::some_crosses(s, spread.beside, olds, news) {
            self.enter_station(i, s, olds, news);
        }
    }

    // A made step at every station asked for, of a rig's points before it and after it.
    // Kept: the new form is no plainer: a struct of the two slices would be built for this call alone, and taken apart where points or pairs are gone through.
    pub fn cross(&mut self, asked: usize, path: Path, olds: &[Vec2], news: &[Vec2])
        requires { Crossable asked (path_of path) (length olds.now) olds.now news.now (room_reaches self.old) }
        ensures loans { SameLoans self.old self.new }
        ensures crossed { room_reaches self.new ≡ crossed asked (path_of path.entry) olds.now news.now (room_reaches self.old) }
    {
        let spread = Spread::of_step(olds, news);
        for i in 0..asked {
            let s = walk::tests::station_at(path, i);
            self.cross_station(i, s, spread, olds, news);
        }
    }
}

fn place_of(i: usize, c: Cell) -> Place
    ensures { result ≡ place_of i c }
{
    let left = i64::from(c.left);
    let right = i64::from(c.right);
    Place {
        station: i,
        width: right - left,
        left,
        right,
    }
}

// A place against the best so far: only a greater width beats it.
fn wider(p: Place, best: Option<Place>) -> Option<Place>
    ensures { result ≡ wider_of p best }
{
    match best {
        Some(q) if p.width <= q.width => best,
        _ => Some(p),
    }
}

// A station against the best so far; only one that as many points have crossed as the rig has counts.
fn considered(count: usize, i: usize, c: Cell, best: Option<Place>) -> Option<Place>
    requires { HavePlaces count }
    ensures { result ≡ considered_of count i c best }
{
    if marks::all_set(count, c.mark) {
        return wider(place_of(i, c), best);
    }
    best
}

// The best of the stations below asked, for a rig of so many points.
pub fn widest_among(count: usize, asked: usize, runs: Reached) -> Option<Place>
    requires { Searchable count asked (reached_of runs) }
    ensures { result ≡ widest_among count asked (reached_of runs.entry) }
{
    let mut best = None;
    for i in 0..asked {
        best = considered(count, i, runs.cell(i), best);
    }
    best
}

#[tactic(auto, unfolding(crate::specs::Widest::widest_lent))]
fn widest_lent(asked: usize, runs: Reached) -> bool
    ensures { result ≡ widest_lent asked (reached_of runs.entry) }
{
    ((1 <= asked) & (asked <= 2001))
        & walk::tests::reaches_lent(asked, runs.left.len(), runs.right.len(), runs.marks.len())
}

// The widest station that all points of a walk's rig have crossed; or 21, then 27, then 24 where there is none.
pub fn widest(w: Walk, asked: usize, runs: Reached) -> Result<Place, Fault>
    ensures { as_answer result ≡ widest_answer (view w) asked (reached_of runs.entry) }
{
    if !widest_lent(asked, runs) {
        return Err(Fault::RunTooShort);
    }
    if !walk::tests::record_sound(asked, w) {
        return Err(Fault::RecordUnsound);
    }
    let count = marks::point_count(w.vehicle);
    widest_among(count, asked, runs).ok_or(Fault::NoneComplete)
}

// Claim: the place answered is complete, no complete station is wider and none earlier as wide; 24 exactly where none is complete.
pub fn widest_place()
    ensures { WidestPlace }
{}
