// Frames by channels. Most payloads have one channel, for which nothing is divided.
ghost use Rattle.std.specs.Prelude.{◌≡◌, ◌/◌, ◌%◌, ◌<◌};

/// How often `channels` goes into a count of frames.
pub fn share_of(count: usize, channels: usize) -> usize
    requires { 0 < channels }
    ensures { result ≡ count / channels }
{
    if channels == 1 {
        count
    } else {
        count / channels
    }
}

/// The channel of the frame with this index.
pub fn channel_of(index: usize, channels: usize) -> usize
    requires { 0 < channels }
    ensures { result ≡ index % channels }
{
    if channels == 1 { 0 } else { index % channels }
}
