//! A square of bits turned about its diagonal, by a network of swaps.
ghost use Rattle.std.specs.Prelude.{◌+◌, ◌<◌};
ghost use Rattle.engines.specs.Rows.{Width};
ghost use Rattle.engines.specs.Turns.{Swapped, Stage, MaskOf, Exchanged, Turned};

// The columns of the mask in the row `by` further down change places with those that lie `by` further on in the upper row.
fn swap<const W: usize>(rows: &mut [u64; W], upper: usize, by: usize, mask: u64)
    requires rows { upper + by < W }
    requires apart { 0 < by }
    requires columns { by < 64 }
    ensures { Swapped upper (upper + by) by mask rows.old rows.new }
{
    let changed = ((rows[upper] >> by) ^ rows[upper + by]) & mask;
    rows[upper + by] ^= changed;
    rows[upper] ^= changed << by;
}

// The digits of weight `by` in the numbers of row and column change places.
fn stage<const W: usize>(rows: &mut [u64; W], by: usize, mask: u64)
    requires stage { Stage W by }
    requires mask { MaskOf by mask }
    ensures { Exchanged W by rows.old rows.new }
{
    // By number: after `chunks_exact_mut` a proof knows no row.
    for pair in 0..W / 2 {
        swap(rows, 2 * pair - pair % by, by, mask);
    }
}

// The squares of W columns in W rows. Out of line the rows lie in memory to the compiler, which then makes vector code
// of the swaps: in line a strip of 8 slots takes 0.1 ns a reading more, of 2.2.
#[inline(never)]
pub(crate) fn turn<const W: usize>(rows: &mut [u64; W])
    requires { Width W }
    ensures { Turned W rows.old rows.new }
{
    if 8 < W {
        stage(rows, 16, 0x0000_ffff_0000_ffff);
        stage(rows, 8, 0x00ff_00ff_00ff_00ff);
    }
    stage(rows, 4, 0x0f0f_0f0f_0f0f_0f0f);
    stage(rows, 2, 0x3333_3333_3333_3333);
    stage(rows, 1, 0x5555_5555_5555_5555);
}
