// Builds a key from a stored secret, draws until a word is released, and prints the lines that hand the key and the signature to a module.
#![tactic(auto)]

mod secret; // the sizes, the secret, the starting order and the syndrome
mod samples; // choices for draws

ghost use Rattle.std.specs.Prelude.{◌≡◌, ◌*◌, ◌≤◌, length};

use calls::lent::Choices;
use secret::{SECRET, SIZES, START, Y};
use std::io;
use trits::Planes;
use trits::refusal::Refusal;

// The key is built.
fn build(p: &mut [u16], key_ones: &mut [u64], key_twos: &mut [u64]) -> Result<(), Refusal> {
    build::build(
        SIZES,
        SECRET,
        &START,
        p,
        key_ones,
        key_twos,
        &mut [0; 562],
        &mut [0; 562],
    )
}

// One draw with choices made from x: two orders, ten trits, and sixteen values that are not 0.
fn draw(p: &[u16], x: u64, s_ones: &mut [u64], s_twos: &mut [u64]) -> Result<(), Refusal> {
    let mut v_order = [0; 32];
    let mut u_order = [0; 32];
    let mut v_ones = [0];
    let mut v_twos = [0];
    let (last, filled) = samples::fill_row(10, x, &mut v_ones, &mut v_twos);
    filled?;
    let values = samples::next(last) % 65536;
    samples::fill_order(&mut v_order, 2 * (x % 16) as usize + 1, (x % 32) as usize);
    samples::fill_order(
        &mut u_order,
        2 * (last % 16) as usize + 1,
        (last % 32) as usize,
    );
    let choices = Choices {
        v_order: &v_order,
        v: Planes {
            ones: &v_ones,
            twos: &v_twos,
        },
        u_order: &u_order,
        u: Planes {
            ones: &[values],
            twos: &[65535 - values],
        },
    };
    draw::draw(
        SIZES,
        SECRET,
        p,
        Y,
        choices,
        &mut [0],
        &mut [0],
        s_ones,
        s_twos,
        &mut [0; 270],
        &mut [0; 270],
    )
}

// Draws until a word is released, at most a thousand times; whether one was.
fn sign(p: &[u16], s_ones: &mut [u64], s_twos: &mut [u64]) -> bool {
    (0..1000).any(|x| draw(p, x, s_ones, s_twos).is_ok())
}

// The first m trits of a row as digits.
fn digits(rt: &impl Print, row: Planes, m: usize) -> io::Result<()>
    requires { (length row.twos.now ≡ length row.ones.now) × (m ≤ 64 * length row.ones.now) }
{
    for i in 0..m {
        print!(rt; "{}", planes::places::trit_at(row, i))?;
    }
    Ok(())
}

// The key's rows, one line for each.
fn show_key(rt: &impl Print, key_ones: &[u64; 26], key_twos: &[u64; 26]) -> io::Result<()> {
    for (&ones, &twos) in key_ones.iter().zip(key_twos) {
        let row = Planes {
            ones: &[ones],
            twos: &[twos],
        };
        print!(rt; "K\t")?;
        digits(rt, row, 38)?;
        println!(rt)?;
    }
    Ok(())
}

fn main(rt: HostRuntime) -> io::Result<()> {
    let mut p = [0; 64];
    let mut key_ones = [0; 26];
    let mut key_twos = [0; 26];
    let mut s_ones = [0];
    let mut s_twos = [0];
    if build(&mut p, &mut key_ones, &mut key_twos).is_err() || !sign(&p, &mut s_ones, &mut s_twos) {
        return Ok(());
    }
    println!(rt; "P\t7\t64\t26\t52")?;
    show_key(&rt, &key_ones, &key_twos)?;
    print!(rt; "S\t7\t12\t")?;
    digits(&rt, Y, 38)?;
    print!(rt; "\t")?;
    let s = Planes {
        ones: &s_ones,
        twos: &s_twos,
    };
    digits(&rt, s, 26)?;
    println!(rt)
}
