// The working space at its end.
// What is written stays two slices: of a slice the length and the ranges of words are known with no clause, of one in a struct they are not.
ghost use Rattle.std.specs.Prelude.{◌≡◌, length};
ghost use Rattle.trits.specs.Planes.{zero_words};

// Both working planes are made 0.
pub fn clear(work_ones: &mut [u64], work_twos: &mut [u64])
    ensures { (work_ones.new ≡ zero_words (length work_ones.old))
        × (work_twos.new ≡ zero_words (length work_twos.old)) }
{
    planes::words::zero_words(work_ones);
    planes::words::zero_words(work_twos);
}
