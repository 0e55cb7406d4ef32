//! Which rows of a region a look at a pair probes.
ghost use Rattle.std.specs.Prelude.{◌≡◌, ◌<◌};
ghost use Rattle.vsd_words.specs.Hash.{IsRegionSize};
ghost use Rattle.vsd_trails.specs.CastTrails.{region_size, probe_row};

/// How many rows a region has: 128, and twice as many with each region before it.
#[inline]
pub(crate) fn region_size(region: u16) -> u32
    requires { region < 6 }
    ensures size { result ≡ region_size region }
    ensures lawful { IsRegionSize result }
{
    128 << region
}

/// The row of the i-th probe of eight, from the home on and round the end.
#[inline]
pub(crate) fn probe_row(region: u16, home: u32, i: usize) -> u32
    requires region { region < 6 }
    requires home { home < region_size region }
    requires probe { i < 8 }
    ensures row { result ≡ probe_row region home i }
    ensures in_range { result < region_size region }
{
    (home + i as u32) & (region_size(region) - 1)
}
