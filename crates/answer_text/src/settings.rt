// The settings that a job is offered, a line each, or why there are none.
ghost use Rattle.std.specs.Prelude.{◌++◌};
ghost use Rattle.ranking.specs.Ranking.{as_list};
ghost use Rattle.offered.specs.Answers.{offered_by};
ghost use Rattle.answer_text.specs.Answers.{TextIs};
ghost use Rattle.answer_text.specs.Appending.{nothing, Line};
ghost use Rattle.answer_text.specs.Inner.{Space};
ghost use Rattle.answer_text.specs.Settings.{setting_line, number_line, listed_lines, printed_settings};
ghost use Rattle.answer_text.specs.Forms.{SettingForms};

use crate::{Text, refused_text};
use ranking::{Setting, Shortlist};
use told::{Numbered, Tell};

impl Text {
    fn put_setting(self, s: Setting) -> Text
        requires { Space self 50 }
        ensures { Line self (setting_line s) 50 result }
    {
        self.put_number(b"setting ", u64::from(s.wheelbase))
            .put_signed(b" ", s.width)
            .put_words(b"\n")
    }
}

// Kept: the number, for the reason given at `refused_text`.
fn numbered_text(number: u8) -> Text
    ensures { Line nothing (number_line number) 29 result }
{
    Text::empty()
        .put_number(b"refused ", u64::from(number))
        .put_words(b"\n")
}

// Best first, as they stand in the list.
fn listed_text(l: Shortlist) -> Text
    ensures { Line nothing (listed_lines (as_list l)) 150 result }
{
    match l {
        Shortlist::One(a) => Text::empty().put_setting(a),
        Shortlist::Two(a, b) => Text::empty().put_setting(a).put_setting(b),
        Shortlist::Three(a, b, c) => Text::empty().put_setting(a).put_setting(b).put_setting(c),
    }
}

// Any list's lines, or any refusal's: the longest of them fit.
pub fn settings_text<R: Tell<Numbered>>(o: Result<Shortlist, R>) -> Text
    ensures { TextIs (printed_settings (offered_by R.told o)) result }
{
    match o {
        Ok(l) => listed_text(l),
        Err(refusal) => match refusal.tell() {
            Numbered::At(number, byte) => refused_text(number, byte),
            Numbered::Alone(number) => numbered_text(number),
        },
    }
}

// Claim: the printed forms of N1, word for word.
#[tactic(auto, using(crate::proofs::Rows::setting_forms_lem))]
pub fn setting_forms()
    ensures { SettingForms }
{}
