// What the two calls are lent: the secret, and the choices of a draw.
use trits::Planes;

// H_U, H_V, b and c.
#[derive(Clone, Copy)]
pub struct SecretPlanes<'a> {
    pub hu: Planes<'a>,
    pub hv: Planes<'a>,
    pub b: Planes<'a>,
    pub c: Planes<'a>,
}

// A V order, V trits, a U order and U values.
#[derive(Clone, Copy)]
pub struct Choices<'a> {
    pub v_order: &'a [u16],
    pub v: Planes<'a>,
    pub u_order: &'a [u16],
    pub u: Planes<'a>,
}
