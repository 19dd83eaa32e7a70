// Pieces of a packet, written one behind the other: each call says where its piece ends.
ghost use Rattle.std.specs.Prelude.{◌≡◌, ◌+◌, ◌*◌, ◌/◌, ◌≤◌, ◌++◌, length, take, flat_map};
ghost use Rattle.rtp_packet.specs.Written.{octets_16, octets_32, padding_octets, IsWords};

/// 16 bits, the most significant octet first.
pub(crate) fn two_octets(n: u16) -> [u8; 2]
    ensures { result ≡ octets_16 n }
{
    [(n / 256 % 256) as u8, (n % 256) as u8]
}

/// 32 bits, the most significant octet first.
pub(crate) fn four_octets(n: u32) -> [u8; 4]
    ensures { result ≡ octets_32 n }
{
    [
        (n / 16_777_216 % 256) as u8,
        (n / 65536 % 256) as u8,
        (n / 256 % 256) as u8,
        (n % 256) as u8,
    ]
}

/// Writes a piece from `at` on.
pub(crate) fn put(out: &mut [u8], at: usize, piece: &[u8]) -> usize
    requires { at + length piece.now ≤ length out.old }
    ensures end { result ≡ at + length piece.now }
    ensures front { take result out.new ≡ take at out.old ++ piece.now }
{
    let end = at + piece.len();
    out[at..end].copy_from_slice(piece);
    end
}

/// Writes contributing sources from `at` on.
pub(crate) fn put_sources(out: &mut [u8], at: usize, sources: &[u32]) -> usize
    requires few { length sources.now ≤ 15 }
    requires fits { at + 4 * length sources.now ≤ length out.old }
    ensures end { result ≡ at + 4 * length sources.now }
    ensures front { take result out.new ≡ take at out.old ++ flat_map octets_32 sources.now }
{
    let mut end = at;
    for source in sources {
        end = put(out, end, &four_octets(*source));
    }
    end
}

/// Writes an extension from `at` on: its 16 bits, the number of its words, and the words.
pub(crate) fn put_extension(out: &mut [u8], at: usize, bits: u16, words: &[u8]) -> usize
    requires words { IsWords words.now }
    requires fits { at + 4 + length words.now ≤ length out.old }
    ensures end { result ≡ at + 4 + length words.now }
    ensures front { take result out.new ≡ take at out.old
        ++ (octets_16 bits ++ octets_16 (length words.now / 4) ++ words.now) }
{
    let behind_bits = put(out, at, &two_octets(bits));
    let head_end = put(out, behind_bits, &two_octets((words.len() / 4) as u16));
    put(out, head_end, words)
}

/// Writes padding from `at` to the end: zeros, and then the number of all padding octets.
pub(crate) fn put_padding(out: &mut [u8], at: usize, padding: u8)
    requires { at + padding ≡ length out.old }
    ensures { out.new ≡ take at out.old ++ padding_octets padding }
{
    if padding == 0 {
        return;
    }
    let last = out.len() - 1;
    out[at..last].fill(0);
    out[last] = padding;
}
