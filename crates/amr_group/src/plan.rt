// Places in groups, and blocks by their numbers.
ghost use Rattle.std.specs.Prelude.{◌≡◌, ◌<◌, ◌≤◌, ◌*◌, ◌^◌};
ghost use Rattle.spec_sending.specs.Groups.{GroupPlace, IsGroupPlace, block_at_place, place_of_block};

/// Interleaving groups of `length` packets, each of `blocks` blocks (RFC 4867, 4.4.1): 1 to 64
/// blocks and 1 to 16 packets.
#[derive(Clone, Copy, Debug, PartialEq, Eq)]
pub struct GroupPlan {
    pub blocks: u8,
    pub length: u8,
    ghost blocks_fit: { (1 ≤ blocks) × (blocks ≤ 64) },
    ghost length_fits: { (1 ≤ length) × (length ≤ 16) },
}

impl GroupPlan {
    ghost use Rattle.amr_group.specs.Buffer.{size_of};
    ghost use Rattle.amr_group.specs.Places.{IsAt};

    /// How many blocks a group has.
    pub fn size(&self) -> u16
        ensures exact { result ≡ size_of self.now }
        ensures most { result ≤ 1024 }
        ensures some { 1 ≤ result }
    {
        u16::from(self.blocks) * u16::from(self.length)
    }

    /// The number, of all blocks, of block `k` of a packet of a group, all counted from 0.
    pub fn place(&self, group: u64, packet: u8, k: u8) -> u64
        requires group { group < 2 ^ 53 }
        requires packet { packet < self.now.length }
        requires block { k < self.now.blocks }

        ensures { result ≡ block_at_place self.now.blocks self.now.length
            (record { group = group; packet = packet; block = k }) }
    {
        group * u64::from(self.size()) + u64::from(packet) + u64::from(k) * u64::from(self.length)
    }

    /// The group, the packet in it and the block in the packet where a block stands, all counted
    /// from 0: the inverse of `place`.
    pub fn of_place(&self, block: u64) -> (u64, u8, u8)
        requires few { block < 2 ^ 53 }

        ensures place { IsAt result (place_of_block self.now.blocks self.now.length block) }
        ensures there { (p : GroupPlace) → IsGroupPlace self.now.blocks self.now.length p
            → block_at_place self.now.blocks self.now.length p ≡ block → IsAt result p }
    {
        let size = u64::from(self.size());
        let length = u64::from(self.length);
        let within = block % size;
        (
            block / size,
            (within % length) as u8,
            (within / length) as u8,
        )
    }
}
