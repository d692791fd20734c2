// Settings in their order, and the best three of them.
#![tactic(auto)]

ghost use Rattle.std.specs.Prelude.{◌≡◌};
ghost use Rattle.ranking.specs.Ranking.{as_list, so_far, entered};
ghost use Rattle.ranking.specs.Best.{BestThree};

// A setting: the widest width of the walk with it, and the last wheelbase; the less in this order, the better.
#[derive(Clone, Copy, PartialEq, Eq, PartialOrd, Ord)]
pub struct Setting {
    pub width: i64,
    pub wheelbase: u32,
}

// The settings listed, best first; one at least.
#[derive(Clone, Copy, PartialEq, Eq)]
pub enum Shortlist {
    One(Setting),
    Two(Setting, Setting),
    Three(Setting, Setting, Setting),
}

// One more setting: it enters before the first that it beats, and no more than three stay.
#[tactic(auto, unfolding(crate::specs::Ranking::insert))]
pub fn enter(s: Setting, l: Option<Shortlist>) -> Shortlist
    ensures { as_list result ≡ entered s (so_far l) }
{
    match l {
        None => Shortlist::One(s),
        Some(Shortlist::One(a)) if s < a => Shortlist::Two(s, a),
        Some(Shortlist::One(a)) => Shortlist::Two(a, s),
        Some(Shortlist::Two(a, b)) if s < a => Shortlist::Three(s, a, b),
        Some(Shortlist::Two(a, b)) if s < b => Shortlist::Three(a, s, b),
        Some(Shortlist::Two(a, b)) => Shortlist::Three(a, b, s),
        Some(Shortlist::Three(a, b, _)) if s < a => Shortlist::Three(s, a, b),
        Some(Shortlist::Three(a, b, _)) if s < b => Shortlist::Three(a, s, b),
        Some(Shortlist::Three(a, b, c)) if s < c => Shortlist::Three(a, b, s),
        Some(Shortlist::Three(a, b, c)) => Shortlist::Three(a, b, c),
    }
}

// Claim: the list is the best three of the settings, or fewer if fewer.
pub fn best_three()
    ensures { BestThree }
{}
