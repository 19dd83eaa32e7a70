/// A segment that has begun: its source, the timestamp of its first packet, the last place so far, and the next
/// place to go out. The first packet's place is 2^24.
#[derive(Clone, Copy, Debug, PartialEq, Eq)]
pub struct Begun {
    pub source: u32,
    pub origin: u32,
    pub horizon: u64,
    pub next: u64,
}
