// The five steps of a round, each on a whole state; a sheet is the array of the lanes at one x.
// Five lanes and five sheets are written out: a function that takes a closure for them is no plainer, each closure repeating `requires { x < 5 }`.
ghost use Rattle.std.specs.Prelude.{◌≡◌, ◌<◌};
ghost use Rattle.keccak.specs.Keccak.{rotated, parity, two_parities, theta, rho, pi, chi, iota};
ghost use Rattle.keccak.specs.Lanes.{lane_at, sheet_of, lanes_of};

// A lane rotated by k bits.
fn rotate(lane: u64, k: u32) -> u64
    requires { k < 64 }
    ensures { result ≡ rotated lane k }
{
    lane.rotate_left(k)
}

// The parity of the columns at x.
fn parity(a: [[u64; 5]; 5], x: usize) -> u64
    requires { x < 5 }
    ensures { result ≡ parity (lane_at a) x }
{
    let sheet = a[x];
    sheet[0] ^ sheet[1] ^ sheet[2] ^ sheet[3] ^ sheet[4]
}

// What theta adds to the lanes at x.
fn two_parities(a: [[u64; 5]; 5], x: usize) -> u64
    requires { x < 5 }
    ensures { result ≡ two_parities (lane_at a) x }
{
    parity(a, (x + 4) % 5) ^ rotate(parity(a, (x + 1) % 5), 1)
}

// The lanes at x after theta.
fn theta_sheet(a: [[u64; 5]; 5], x: usize) -> [u64; 5]
    requires { x < 5 }
    ensures { result ≡ sheet_of (theta (lane_at a)) x }
{
    let sheet = a[x];
    let d = two_parities(a, x);
    [
        sheet[0] ^ d,
        sheet[1] ^ d,
        sheet[2] ^ d,
        sheet[3] ^ d,
        sheet[4] ^ d,
    ]
}

// To each lane come the parities of two columns beside it.
pub fn theta(a: [[u64; 5]; 5]) -> [[u64; 5]; 5]
    ensures { result ≡ lanes_of (theta (lane_at a)) }
{
    [
        theta_sheet(a, 0),
        theta_sheet(a, 1),
        theta_sheet(a, 2),
        theta_sheet(a, 3),
        theta_sheet(a, 4),
    ]
}

// Lane (x, y) after rho.
fn rho_lane(a: [[u64; 5]; 5], x: usize, y: usize) -> u64
    requires { (x < 5) × (y < 5) }
    ensures { result ≡ rho (lane_at a) x y }
{
    rotate(a[x][y], super::tables::offset(x, y))
}

// The lanes at x after rho.
fn rho_sheet(a: [[u64; 5]; 5], x: usize) -> [u64; 5]
    requires { x < 5 }
    ensures { result ≡ sheet_of (rho (lane_at a)) x }
{
    [
        rho_lane(a, x, 0),
        rho_lane(a, x, 1),
        rho_lane(a, x, 2),
        rho_lane(a, x, 3),
        rho_lane(a, x, 4),
    ]
}

// Each lane is rotated by its offset.
pub fn rho(a: [[u64; 5]; 5]) -> [[u64; 5]; 5]
    ensures { result ≡ lanes_of (rho (lane_at a)) }
{
    [
        rho_sheet(a, 0),
        rho_sheet(a, 1),
        rho_sheet(a, 2),
        rho_sheet(a, 3),
        rho_sheet(a, 4),
    ]
}

// Lane (x, y) after pi.
fn pi_lane(a: [[u64; 5]; 5], x: usize, y: usize) -> u64
    requires { (x < 5) × (y < 5) }
    ensures { result ≡ pi (lane_at a) x y }
{
    a[(x + 3 * y) % 5][x]
}

// The lanes at x after pi.
fn pi_sheet(a: [[u64; 5]; 5], x: usize) -> [u64; 5]
    requires { x < 5 }
    ensures { result ≡ sheet_of (pi (lane_at a)) x }
{
    [
        pi_lane(a, x, 0),
        pi_lane(a, x, 1),
        pi_lane(a, x, 2),
        pi_lane(a, x, 3),
        pi_lane(a, x, 4),
    ]
}

// The lanes change places.
pub fn pi(a: [[u64; 5]; 5]) -> [[u64; 5]; 5]
    ensures { result ≡ lanes_of (pi (lane_at a)) }
{
    [
        pi_sheet(a, 0),
        pi_sheet(a, 1),
        pi_sheet(a, 2),
        pi_sheet(a, 3),
        pi_sheet(a, 4),
    ]
}

// Lane (x, y) after chi.
fn chi_lane(a: [[u64; 5]; 5], x: usize, y: usize) -> u64
    requires { (x < 5) × (y < 5) }
    ensures { result ≡ chi (lane_at a) x y }
{
    a[x][y] ^ (!a[(x + 1) % 5][y] & a[(x + 2) % 5][y])
}

// The lanes at x after chi.
fn chi_sheet(a: [[u64; 5]; 5], x: usize) -> [u64; 5]
    requires { x < 5 }
    ensures { result ≡ sheet_of (chi (lane_at a)) x }
{
    [
        chi_lane(a, x, 0),
        chi_lane(a, x, 1),
        chi_lane(a, x, 2),
        chi_lane(a, x, 3),
        chi_lane(a, x, 4),
    ]
}

// To each lane come bits of the second lane after it, where those of the first are 0.
pub fn chi(a: [[u64; 5]; 5]) -> [[u64; 5]; 5]
    ensures { result ≡ lanes_of (chi (lane_at a)) }
{
    [
        chi_sheet(a, 0),
        chi_sheet(a, 1),
        chi_sheet(a, 2),
        chi_sheet(a, 3),
        chi_sheet(a, 4),
    ]
}

// Lane (x, y) after iota.
fn iota_lane(a: [[u64; 5]; 5], constant: u64, x: usize, y: usize) -> u64
    requires { (x < 5) × (y < 5) }
    ensures { result ≡ iota constant (lane_at a) x y }
{
    if x + y == 0 {
        a[x][y] ^ constant
    } else {
        a[x][y]
    }
}

// The lanes at x after iota.
fn iota_sheet(a: [[u64; 5]; 5], constant: u64, x: usize) -> [u64; 5]
    requires { x < 5 }
    ensures { result ≡ sheet_of (iota constant (lane_at a)) x }
{
    [
        iota_lane(a, constant, x, 0),
        iota_lane(a, constant, x, 1),
        iota_lane(a, constant, x, 2),
        iota_lane(a, constant, x, 3),
        iota_lane(a, constant, x, 4),
    ]
}

// The round's constant comes to lane (0, 0).
pub fn iota(a: [[u64; 5]; 5], constant: u64) -> [[u64; 5]; 5]
    ensures { result ≡ lanes_of (iota constant (lane_at a)) }
{
    [
        iota_sheet(a, constant, 0),
        iota_sheet(a, constant, 1),
        iota_sheet(a, constant, 2),
        iota_sheet(a, constant, 3),
        iota_sheet(a, constant, 4),
    ]
}
