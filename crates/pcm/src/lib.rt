// 16-bit little-endian PCM: its bytes as samples, and the values that a stream gives as bytes. `specs/Pcm.antt` says
// which.
#![tactic(auto)]

ghost use Rattle.std.specs.Prelude.{◌≡◌, ◌+◌, ◌*◌, ◌≤◌, length};
ghost use Rattle.pcm.specs.Pcm.{sample_of, pair_of, sample_read, Decoded, Encoded};

// The sample of a pair of bytes.
fn sample(low: u8, high: u8) -> i16
    ensures { result ≡ sample_of (low + high * 256) }
{
    i16::from_le_bytes([low, high])
}

// The first `count` samples. The count stands beside the slices here and in `encode` because callers lend longer ones,
// and promise what these hold: with slices cut to it each caller's contract would speak of parts.
pub fn decode(bytes: &[u8], count: usize, samples: &mut [i16])
    requires { (2 * count ≤ length bytes.now) × (count ≤ length samples.old) }
    ensures { Decoded count bytes.now samples.new }
{
    for i in 0..count {
        samples[i] = sample(bytes[2 * i], bytes[2 * i + 1]);
    }
}

// The bytes of a sample, as a number. The definitions of bytes, here and in chunks, go by this number.
pub fn pair(v: i16) -> u16
    ensures { result ≡ pair_of v }
{
    v.cast_unsigned()
}

// The sample that a read made this value of: that of a write, but −32768 for a value below −1, which a write holds to
// −32767.
fn sample_read(x: f32) -> i16
    ensures { result ≡ sample_read x }
{
    if x < -1.0 {
        -32768
    } else {
        floats::samples::sample_in(x)
    }
}

// The bytes of the first `count` values.
pub fn encode(values: &[f32], count: usize, bytes: &mut [u8])
    requires { (count ≤ length values.now) × (2 * count ≤ length bytes.old) }
    ensures { Encoded count values.now bytes.new }
{
    for i in 0..count {
        let [low, high] = pair(sample_read(values[i])).to_le_bytes();
        bytes[2 * i] = low;
        bytes[2 * i + 1] = high;
    }
}
