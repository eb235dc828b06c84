// What one half of a draw is lent, and the rows of the grid that it is made in.
use trits::Planes;

// The matrix of r rows and the order of its places, of which the first r + gap are the first part.
#[derive(Clone, Copy)]
pub struct Half<'a> {
    pub h: Planes<'a>,
    pub r: usize,
    pub order: &'a [u16],
    pub gap: usize,
}

// Row x is what the matrix is multiplied with, row t has the first part by position, row e becomes the word.
#[derive(Clone, Copy)]
pub struct HalfRows {
    pub x: usize,
    pub t: usize,
    pub e: usize,
}
