// The list of settings called with what a table's line hands over; its answer and the seven runs are held to the line.
#![tactic(auto)]

use bogie::Rail;
use ranking::{Setting, Shortlist};
use refusal::Fault;
use trial_calls::runs::{PathArrays, ReachArrays};
use trial_tools::reading::{Line, same};

// Stands where nothing is listed.
const NO_SETTING: Setting = Setting {
    wheelbase: 0,
    width: 0,
};

// A refusal's number or 0, how many are listed, and three settings.
type Told = (u8, usize, [Setting; 3]);

fn told(listed: Result<Shortlist, Fault>) -> Told {
    match listed {
        Ok(Shortlist::One(a)) => (0, 1, [a, NO_SETTING, NO_SETTING]),
        Ok(Shortlist::Two(a, b)) => (0, 2, [a, b, NO_SETTING]),
        Ok(Shortlist::Three(a, b, c)) => (0, 3, [a, b, c]),
        Err(fault) => (fault.number(), 0, [NO_SETTING; 3]),
    }
}

fn read_setting(line: &mut Line<'_>) -> Option<Setting> {
    Some(Setting {
        wheelbase: line.number()?,
        width: line.number()?,
    })
}

pub fn list(line: &mut Line<'_>) -> Option<()> {
    let mut path_arrays = PathArrays::empty();
    let mut reach_arrays = ReachArrays::empty();
    let job = line.job()?;
    let rail = Rail {
        lowest: line.number()?,
        pitch: line.number()?,
        number: line.number()?,
    };
    let mut path_room = path_arrays.read(line)?;
    let mut room = reach_arrays.read(line)?;
    line.equals_sign()?;
    let (number, count, settings) = told(bogie::list_settings(
        job,
        rail,
        &mut path_room,
        &mut room,
    ));
    same(line.number()?, number)?;
    same(line.number()?, count)?;
    for setting in settings {
        same(read_setting(line)?, setting)?;
    }
    line.expect_run(path_room.xs)?;
    line.expect_run(path_room.ys)?;
    line.expect_run(path_room.gxs)?;
    line.expect_run(path_room.gys)?;
    line.expect_run(room.left)?;
    line.expect_run(room.right)?;
    line.expect_run(room.marks)
}
