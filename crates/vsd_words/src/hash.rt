//! Hashes.
ghost use Rattle.std.specs.Prelude.{◌≡◌, ◌<◌};
ghost use Rattle.vsd_words.specs.Handle.{HandleInRange};
ghost use Rattle.vsd_words.specs.Hash.{IsBucketCount, IsRegionSize, mix, bucket_of, home_of};

use crate::handle::Handle;

/// 2^64 over the golden ratio: the factor of multiplicative hashing.
const GOLDEN: u64 = 11400714819323198485;

/// The upper half of the product, in which every bit of `x` has a part.
#[tactic(auto, unfolding(crate::specs::Hash::mix))]
#[inline]
fn mix(x: u64) -> u32
    ensures { result ≡ mix x }
{
    (x.wrapping_mul(GOLDEN) >> 32) as u32
}

/// The bucket of the resolve cache in which a call through a token on a handle is looked for: a
/// number below `buckets`, the count of them, which is a power of two from 1 to 1,024.
#[inline]
pub fn bucket_of(token: u16, h: Handle, buckets: u32) -> u32
    requires handle { HandleInRange h }
    requires buckets { IsBucketCount buckets }
    ensures formula { result ≡ bucket_of token h buckets }
    ensures in_range { result < buckets }
{
    mix(h.pack() + (1 << 48) * u64::from(token)) & (buckets - 1)
}

/// The row of a cast region at which the probes for a cast begin: a number below `size`, the
/// region's count of rows, which is 128, or twice as many up to five times over.
#[inline]
pub fn home_of(source: Handle, target: Handle, size: u32) -> u32
    requires source { HandleInRange source }
    requires target { HandleInRange target }
    requires size { IsRegionSize size }
    ensures formula { result ≡ home_of source target size }
    ensures in_range { result < size }
{
    mix(source.pack() ^ target.pack().rotate_left(17)) & (size - 1)
}
