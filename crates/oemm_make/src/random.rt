//! The heights of a sample's vertices, as a generator of random numbers makes them.

ghost use Rattle.std.specs.Prelude.{◌≡◌, ◌<◌, ◌^◌};
ghost use Rattle.oemm_make.specs.Sample.{height, next_random};

/// The number that the generator makes after this one. It is the generator that the standard of C gives as an example:
/// linear and congruent.
pub fn next_random(number: u32) -> u32
    requires { number < 2 ^ 31 }
    ensures exact { result ≡ next_random number }
    ensures within { result < 2 ^ 31 }
{
    ((u64::from(number) * 1_103_515_245 + 12_345) % (1 << 31)) as u32
}

/// The height for a number of the generator, from -16 to 16.
pub fn height(number: u32) -> i16
    ensures { result ≡ height number }
{
    (number / 65_536 % 33) as i16 - 16
}
