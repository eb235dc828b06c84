// SHAKE256 of FIPS 202.
#![tactic(auto)]

pub mod block; // a block added to a state
pub mod padding; // the bytes of the padded message
pub mod absorbing; // a message taken in
pub mod squeezing; // bytes of the output

ghost use Rattle.std.specs.Prelude.{◌≡◌, length};
ghost use Rattle.shake.specs.Shake.{shake256};

// SHAKE256 of a message, as many bytes as are lent.
pub fn shake256(message: &[u8], output: &mut [u8])
    ensures { output.new ≡ shake256 message.now (length output.old) }
{
    let a = absorbing::absorb(&message[..0], message);
    squeezing::squeeze(a, output);
}
