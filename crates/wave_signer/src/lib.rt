// The editor's half for C: each call in numbers. Nothing but what a host needs is exported.
// The planes are parameters one by one: the C interface may not change.
#![tactic(auto)]

ghost use Rattle.std.specs.Prelude.{◌≡◌};
ghost use Rattle.trits.specs.Planes.{pair_of};
ghost use Rattle.calls.specs.Lent.{planes};
ghost use Rattle.calls.specs.BuildCall.{build_call, build_answer, order_exit, key_exit, build_work_exit};
ghost use Rattle.calls.specs.DrawCall.{draw_call, draw_answer, word_exit, s_exit, draw_work_exit};

use calls::lent::{Choices, SecretPlanes};
use scheme::sizes::Sizes;
use trits::Planes;

// `build` for C: 0, or the number of the refusal.
#[unsafe(no_mangle)]
pub extern "C" fn wave_build(
    z: Sizes,
    hu_ones: &[u64],
    hu_twos: &[u64],
    hv_ones: &[u64],
    hv_twos: &[u64],
    b_ones: &[u64],
    b_twos: &[u64],
    c_ones: &[u64],
    c_twos: &[u64],
    start: &[u16],
    p: &mut [u16],
    key_ones: &mut [u64],
    key_twos: &mut [u64],
    work_ones: &mut [u64],
    work_twos: &mut [u64],
) -> u64
    ensures { let i = build_call (planes hu_ones.now hu_twos.now hv_ones.now hv_twos.now
        b_ones.now b_twos.now c_ones.now c_twos.now)
        start.now p.old key_ones.old key_twos.old work_ones.old work_twos.old in
        (result ≡ build_answer z i) × (p.new ≡ order_exit z i) × (pair_of key_ones.new key_twos.new ≡ key_exit z i)
        × (pair_of work_ones.new work_twos.new ≡ build_work_exit z i) }
{
    let secret = SecretPlanes {
        hu: Planes {
            ones: hu_ones,
            twos: hu_twos,
        },
        hv: Planes {
            ones: hv_ones,
            twos: hv_twos,
        },
        b: Planes {
            ones: b_ones,
            twos: b_twos,
        },
        c: Planes {
            ones: c_ones,
            twos: c_twos,
        },
    };
    let outcome = build::build(
        z, secret, start, p, key_ones, key_twos, work_ones, work_twos,
    );
    trits::refusal::code(outcome) // of the build
}

// `draw` for C: 0, or the number of the refusal.
#[unsafe(no_mangle)]
pub extern "C" fn wave_draw(
    z: Sizes,
    hu_ones: &[u64],
    hu_twos: &[u64],
    hv_ones: &[u64],
    hv_twos: &[u64],
    b_ones: &[u64],
    b_twos: &[u64],
    c_ones: &[u64],
    c_twos: &[u64],
    p: &[u16],
    y_ones: &[u64],
    y_twos: &[u64],
    v_order: &[u16],
    v_ones: &[u64],
    v_twos: &[u64],
    u_order: &[u16],
    u_ones: &[u64],
    u_twos: &[u64],
    word_ones: &mut [u64],
    word_twos: &mut [u64],
    s_ones: &mut [u64],
    s_twos: &mut [u64],
    work_ones: &mut [u64],
    work_twos: &mut [u64],
) -> u64
    ensures { let i = (draw_call (planes hu_ones.now hu_twos.now hv_ones.now hv_twos.now
        b_ones.now b_twos.now c_ones.now c_twos.now)
        p.now y_ones.now y_twos.now v_order.now v_ones.now v_twos.now
        u_order.now u_ones.now u_twos.now
        word_ones.old word_twos.old s_ones.old s_twos.old work_ones.old
        work_twos.old) in
        (result ≡ draw_answer z i) × (pair_of word_ones.new word_twos.new ≡ word_exit z i)
        × (pair_of s_ones.new s_twos.new ≡ s_exit z i)
        × (pair_of work_ones.new work_twos.new ≡ draw_work_exit z i) }
{
    let secret = SecretPlanes {
        hu: Planes {
            ones: hu_ones,
            twos: hu_twos,
        },
        hv: Planes {
            ones: hv_ones,
            twos: hv_twos,
        },
        b: Planes {
            ones: b_ones,
            twos: b_twos,
        },
        c: Planes {
            ones: c_ones,
            twos: c_twos,
        },
    };
    let y = Planes {
        ones: y_ones,
        twos: y_twos,
    };
    let choices = Choices {
        v_order,
        v: Planes {
            ones: v_ones,
            twos: v_twos,
        },
        u_order,
        u: Planes {
            ones: u_ones,
            twos: u_twos,
        },
    };
    let outcome = draw::draw(
        z, secret, p, y, choices, word_ones, word_twos, s_ones, s_twos, work_ones, work_twos,
    );
    trits::refusal::code(outcome) // of the draw
}
