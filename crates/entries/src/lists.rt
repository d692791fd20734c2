// A list of settings as a number and the entries of a lent run.
ghost use Rattle.std.specs.Prelude.{◌≡◌, length};
ghost use Rattle.std.proofs.lemmas.List.Edits.{sets};
ghost use Rattle.answer_run.specs.Answers.{TellEnsures};
ghost use Rattle.answer_run.specs.Inner.{Room};
ghost use Rattle.ranking.specs.Ranking.{as_list};
ghost use Rattle.offered.specs.Answers.{offered_by};
ghost use Rattle.entries.specs.Lists.{no_setting, three_entries, list_told, settings_told};
ghost use Rattle.entries.specs.Inner.{OfferFits};

use ranking::{Setting, Shortlist};
use told::{Numbered, Tell};

// What stands where no setting is listed.
fn no_setting() -> Setting
    ensures { result ≡ no_setting }
{
    Setting {
        wheelbase: 0,
        width: 0,
    }
}

// The first seven entries of a run: how many are listed, and three settings.
fn put_list(run: &mut [i64], n: i64, a: Setting, b: Setting, c: Setting)
    requires { Room 0 7 (length run.old) }
    ensures { run.new ≡ sets run.old 0 (three_entries n a b c) }
{
    let entries = [
        n,
        i64::from(a.wheelbase),
        a.width,
        i64::from(b.wheelbase),
        b.width,
        i64::from(c.wheelbase),
        c.width,
    ];
    answer_run::put_entries(run, 0, entries);
}

// A list, with no setting where there are fewer than three.
fn put_listed(run: &mut [i64], listed: Shortlist)
    requires { Room 0 7 (length run.old) }
    ensures { run.new ≡ sets run.old 0 (list_told (as_list listed)).entries }
{
    match listed {
        Shortlist::One(a) => put_list(run, 1, a, no_setting(), no_setting()),
        Shortlist::Two(a, b) => put_list(run, 2, a, b, no_setting()),
        Shortlist::Three(a, b, c) => put_list(run, 3, a, b, c),
    }
}

// The list, or the number of what is refused, with the byte where that is the record.
pub fn tell_offered<R: Tell<Numbered>>(offered: Result<Shortlist, R>, answer: &mut [i64]) -> u32
    requires { OfferFits (offered_by R.told offered) (length answer.old) }
    ensures { TellEnsures (settings_told (offered_by R.told offered)) answer.old result answer.new }
{
    match offered {
        Ok(listed) => {
            put_listed(answer, listed);
            0
        }
        Err(refusal) => match refusal.tell() {
            Numbered::At(number, byte) => answer_run::at_byte(number, byte),
            Numbered::Alone(number) => u32::from(number),
        },
    }
}
