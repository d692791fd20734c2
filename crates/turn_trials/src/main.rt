// Walks document 002's rig round its full turn of 7.5 m and compares its points, step by step, with the table that the document prints.
// The table, crates/turn_trials/data/table.txt, lies in the folder that the program is run in; docs/TABLE.md says how it was read.
#![tactic(auto)]

mod spread;
mod table;

use crate::spread::{ROWS, Squares};
use crate::table::Figures;
use job::{Job, Vehicle};
use path::{Path, PathRoom};
use plane::Vec2;
use reaches::ReachRoom;
use trial_tools::{places, rigs, tables};
use walk::Walk;

// From the origin eastwards: 6 m straight, a full turn to the right on 7.5 m, 20 m straight, in steps of 0.5 m.
fn full_turn() -> Job {
    rigs::sample_job(-1000, 471240, 75000)
}

// The cells of a row, which are those of points 1 to 5, against the points drawn.
fn measure_row(
    figures: &mut Figures<'_>,
    row: usize,
    drawn: [Vec2; marks::POINT_CAPACITY],
    points: &mut [Squares; 5],
) {
    for (squares, place) in points.iter_mut().zip(&drawn[1..6]) {
        let cell = figures.cell();
        if let Some(square) = squares.get_mut(row) {
            *square = cell.and_then(|printed| places::square_between(printed, *place));
        }
    }
}

// Kept: the new form is no plainer: the number of stations is none of the five points.
// The row of the station reached against the rig there, where it is that station's row and the table goes on.
fn measure_station(
    w: Walk,
    asked: usize,
    path: Path<'_>,
    figures: &mut Figures<'_>,
    points: &mut [Squares; 5],
) -> Option<()> {
    let left = figures.left();
    // Kept: the new form is no plainer: usize has no From of a u32, and try_from would answer an error that cannot come.
    let row = figures.figure().size as usize;
    if row != w.station {
        return None;
    }
    let drawn = places::points_at(w, asked, path)?;
    measure_row(figures, row, drawn, points);
    (figures.left() < left).then_some(())
}

// Kept: the five points, for the reason given above.
// The rig is placed and stepped, and measured at each station as long as the rows go on; the rows measured.
fn measure_walk(
    v: Vehicle,
    asked: usize,
    path: Path<'_>,
    room: &mut ReachRoom<'_>,
    figures: &mut Figures<'_>,
    points: &mut [Squares; 5],
) -> usize {
    let mut w = rigs::placed(v, asked, path, room);
    for rows in 0..asked {
        if measure_station(w, asked, path, figures, points).is_none() {
            return rows;
        }
        // A rig that is held up meets a row that is not its station's.
        let _refused = stations::step(&mut w, asked, path, room);
    }
    asked
}

// The path is laid and the rig walked along it; the rows measured.
fn measure(j: Job, text: &[u8], points: &mut [Squares; 5]) -> usize {
    let mut path_room = PathRoom {
        xs: &mut [0i32; ROWS],
        ys: &mut [0i32; ROWS],
        gxs: &mut [0i32; ROWS],
        gys: &mut [0i32; ROWS],
    };
    let mut room = ReachRoom {
        left: &mut [0i32; ROWS],
        right: &mut [0i32; ROWS],
        marks: &mut [0u32; ROWS],
    };
    let Ok(asked) = path::lay(j, &mut path_room) else {
        return 0;
    };
    let mut figures = Figures::of(text);
    measure_walk(
        j.vehicle,
        asked,
        path_room.laid(),
        &mut room,
        &mut figures,
        points,
    )
}

// One line: the rows compared for a point, and how far the drawn places lie from the printed ones. What cannot be written is lost: a trial has
// nowhere else to tell it.
fn report(rt: &impl Print, name: &str, squares: &Squares) {
    let rows = spread::rows_compared(squares);
    let median = spread::distance_of(squares, rows / 2 + 1);
    let largest = spread::distance_of(squares, rows);
    let _written = println!(rt; "{name}: {rows} rows, median {median}, largest {largest} ticks");
}

fn main(rt: HostRuntime) {
    let mut text = [0u8; 65536];
    let length = tables::read_table(&rt, "table.txt", &mut text).unwrap_or(0);
    let mut points = [[None; ROWS]; 5];
    let rows = measure(full_turn(), &text[..length], &mut points);
    let _compared = println!(&rt; "full turn on 7.5 m: {rows} stations compared");
    let _left_out = println!(&rt; "left front corner: left out");
    report(&rt, "right front corner", &points[0]);
    report(&rt, "left front wheel", &points[1]);
    report(&rt, "right front wheel", &points[2]);
    report(&rt, "left rear wheel", &points[3]);
    report(&rt, "right rear wheel", &points[4]);
}
