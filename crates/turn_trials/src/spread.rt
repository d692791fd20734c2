// How far the drawn places of a point lie from the printed ones: squared distances in ticks, one for each row that could be compared.

// The rows of the table.
pub const ROWS: usize = 148;

pub type Squares = [Option<i64>; ROWS];

pub fn rows_compared(squares: &Squares) -> usize {
    squares.iter().flatten().count()
}

// The rows whose square is at most so much.
fn rows_within(squares: &Squares, most: i64) -> usize {
    squares.iter().flatten().filter(|s| **s <= most).count()
}

// The bits of a distance, from the highest down.
const BITS: [u32; 14] = [
    8192, 4096, 2048, 1024, 512, 256, 128, 64, 32, 16, 8, 4, 2, 1,
];

// The least whole distance that so many rows do not go beyond, and 10,000 where that is more:
// of more than half of the rows the median, of all of them the largest. It is put together bit by bit, from what fewer rows lie within.
pub fn distance_of(squares: &Squares, rows: usize) -> u32 {
    let mut distance: u32 = 0;
    for bit in BITS {
        let next = distance.saturating_add(bit);
        let less = i64::from(next.saturating_sub(1));
        if rows_within(squares, less.saturating_mul(less)) < rows {
            distance = next;
        }
    }
    distance.min(10000)
}
