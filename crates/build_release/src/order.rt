// The copy of an order of places.
ghost use Rattle.std.specs.Prelude.{◌≡◌, length};

// The order is copied, place by place: a call of the library for it would be a name that a host has to have.
pub fn copy_order(p: &mut [u16], order: &[u16])
    requires { length order.now ≡ length p.old }
    ensures { p.new ≡ order.now }
{
    for i in 0..p.len() {
        p[i] = order[i];
    }
}
