// Calls of placing and stepping.
use crate::runs::{PathArrays, ReachArrays};
use refusal::Fault;
use trial_tools::reading::{Line, same};
use walk::StepRefusal;

// The refusal's number, 0 for none.
// Kept: the new form is no plainer: the tables write a refusal as its number, which is only compared.
fn number_of(answer: Result<(), Fault>) -> u8 {
    answer.err().map_or(0, |fault| fault.number())
}

// The refusal's number and the unit that it names, 0 for none.
fn numbers_of_step(answer: Result<(), StepRefusal>) -> (u8, usize) {
    match answer {
        Ok(()) => (0, 0),
        Err(StepRefusal::Call(fault)) => (fault.number(), 0),
        Err(StepRefusal::Unit(at)) => (at.fault.number(), at.unit),
    }
}

pub fn place(line: &mut Line<'_>) -> Option<()> {
    let mut path_arrays = PathArrays::empty();
    let mut reach_arrays = ReachArrays::empty();
    let vehicle = line.vehicle()?;
    let mut walk = line.walk()?;
    let asked = line.number()?;
    let path_room = path_arrays.read(line)?;
    let mut room = reach_arrays.read(line)?;
    line.equals_sign()?;
    let answer = stations::place(vehicle, &mut walk, asked, path_room.laid(), &mut room);
    same(line.number()?, number_of(answer))?;
    same(line.walk()?, walk)?;
    line.expect_run(room.left)?;
    line.expect_run(room.right)?;
    line.expect_run(room.marks)
}

pub fn step(line: &mut Line<'_>) -> Option<()> {
    let mut path_arrays = PathArrays::empty();
    let mut reach_arrays = ReachArrays::empty();
    let mut walk = line.walk()?;
    let asked = line.number()?;
    let path_room = path_arrays.read(line)?;
    let mut room = reach_arrays.read(line)?;
    line.equals_sign()?;
    let answer = stations::step(&mut walk, asked, path_room.laid(), &mut room);
    let (number, unit) = numbers_of_step(answer);
    same(line.number()?, number)?;
    same(line.number()?, unit)?;
    same(line.walk()?, walk)?;
    line.expect_run(room.left)?;
    line.expect_run(room.right)?;
    line.expect_run(room.marks)
}
