// The sizes of a key, the test of their ranges, and the numbers that they come to.
ghost use Rattle.std.specs.Prelude.{◌≡◌, true, false, MatchResult};
ghost use Rattle.trits.specs.declared.refusal.Refusal.TheVariants.{Size};
ghost use Rattle.scheme.specs.Sizes.{sizes_fit, shape_of};

use trits::refusal::Refusal;

// n places, k_U and k_V, the gaps g_V and g_U, the weight w.
#[repr(C)]
#[derive(Clone, Copy)]
pub struct Sizes {
    pub n: u64,
    pub ku: u64,
    pub kv: u64,
    pub gv: u64,
    pub gu: u64,
    pub w: u64,
}

// Whether n is even and from 4 to 16,384, k_U and k_V are from 1 to n/2 - 1, g_U is at most k_U, g_V at most k_V, and w is from 1 to n.
pub fn sizes_fit(z: Sizes) -> bool
    ensures { result ≡ sizes_fit z }
{
    let half = z.n / 2;
    (4..=16384).contains(&z.n)
        && z.n % 2 == 0
        && (1..half).contains(&z.ku)
        && (1..half).contains(&z.kv)
        && z.gu <= z.ku
        && z.gv <= z.kv
        && (1..=z.n).contains(&z.w)
}

// N, the words of a row of N trits, and the rows of H_U and of H_V.
#[derive(Clone, Copy)]
pub struct Shape {
    pub half: usize,
    pub words: usize,
    pub ru: usize,
    pub rv: usize,
}

// Sizes in their ranges.
#[derive(Clone, Copy)]
pub struct FittingSizes {
    pub sizes: Sizes,
    pub ghost fit: { sizes_fit sizes ≡ true },
}

// Refused where a size is outside its range, and only there.
impl TryFrom<Sizes> for FittingSizes {
    type Error = Refusal;

    ghost try_from_gives = { λ z r. MatchResult r (λ f. f.sizes ≡ z) (λ e. (e ≡ Size) × (sizes_fit z ≡ false)) };

    fn try_from(sizes: Sizes) -> Result<FittingSizes, Refusal> {
        if !sizes_fit(sizes) {
            return Err(Refusal::Size);
        }
        Ok(FittingSizes { sizes })
    }
}

impl FittingSizes {
    // The numbers that they come to.
    pub fn shape(self) -> Shape
        ensures { result ≡ shape_of self.sizes }
    {
        let z = self.sizes;
        let half = z.n as usize / 2;
        Shape {
            half,
            words: half.div_ceil(64),
            ru: half - z.ku as usize,
            rv: half - z.kv as usize,
        }
    }
}
