// The test of an order of places.
ghost use Rattle.std.specs.Prelude.{◌≡◌, [], ◌≤◌, length};
ghost use Rattle.matrix.specs.Orders.{is_order};
ghost use Rattle.calls.specs.Steps.{Marked, mark_place, all_set};

// The place v is marked, where it is below n.
pub fn mark_place(v: usize, n: usize, flags: &mut [u8])
    requires { n ≤ length flags.old }
    ensures { flags.new ≡ mark_place v n flags.old }
{
    if v < n {
        flags[v] = 1;
    }
}

// Each place below n that stands in the order is marked, in flags that are all 0.
pub fn mark_places(order: &[u16], n: usize, flags: &mut [u8])
    requires n_in_bounds { n ≤ length flags.old }
    requires marked { Marked n [] flags.old }
    ensures { Marked n order.now flags.new }
{
    for &place in order {
        mark_place(usize::from(place), n, flags);
    }
}

// Whether the flags of all n places are set.
pub fn all_marked(flags: &[u8], n: usize) -> bool
    requires { n ≤ length flags.now }
    ensures { result ≡ all_set n flags.now }
{
    flags[..n].iter().all(|&flag| flag != 0)
}

// Whether each place below the length of the order stands in it.
pub fn is_order(order: &[u16]) -> bool
    requires { length order.now ≤ 16384 }
    ensures { result ≡ is_order (length order.now) order.now }
{
    let mut flags = [0u8; 16384]; // fixed memory: the core has no heap
    let n = order.len();
    mark_places(order, n, &mut flags);
    all_marked(&flags, n)
}
