use crate::{StoreWriter, write_cells};
use amr_bits::{BitSlice, FixedBits};
use amr_frame::{BlockSink, Cell, Codec};
use amr_io::{Failed, MemorySink};
use std::test::Fail;

// A SID of either codec: 39 or 40 bits, all set.
fn sid(codec: Codec) -> Cell {
    let (ft, len) = match codec {
        Codec::Amr => (8, 39),
        Codec::AmrWb => (9, 40),
    };
    let Some(bits) = BitSlice::of(&[0xFF; 5], 0, len) else {
        return Cell::no_data();
    };
    Cell {
        ft,
        q: false,
        present: true,
        bits: FixedBits::load(bits),
    }
}

#[test]
fn a_header_names_the_codec_and_the_channels(rt: HostRuntime) -> Result<(), Fail> {
    // RFC 4867, 5.1 and 5.2.
    let rows: [(Codec, u8, &[u8]); 6] = [
        (Codec::Amr, 1, b"#!AMR\n"),
        (Codec::AmrWb, 1, b"#!AMR-WB\n"),
        (Codec::Amr, 2, b"#!AMR_MC1.0\n\x00\x00\x00\x02"),
        (Codec::AmrWb, 2, b"#!AMR-WB_MC1.0\n\x00\x00\x00\x02"),
        (Codec::Amr, 6, b"#!AMR_MC1.0\n\x00\x00\x00\x06"),
        (Codec::AmrWb, 6, b"#!AMR-WB_MC1.0\n\x00\x00\x00\x06"),
    ];
    for (codec, channels, wanted) in rows {
        let mut sink = MemorySink::create(rt.alloc(), 99, 3, &[])?;
        let answer = StoreWriter::new(codec, channels.clamp(1, 6), &mut sink).begin();
        assert_eq!(rt; answer, Ok(()));
        assert_eq!(rt;
            sink.octets(),
            wanted,
            "of {codec:?} with {channels} channels"
        );
    }
    Ok(())
}

#[test]
fn frames_are_written_in_channel_order(rt: HostRuntime) -> Result<(), Fail> {
    // The octet before the bits has the type and Q; the last of 39 bits leaves one bit of its octet (RFC 4867, 5.3).
    let rows: [(Codec, &[u8]); 2] = [
        (Codec::Amr, b"\x40\xFF\xFF\xFF\xFF\xFE\x7C"),
        (Codec::AmrWb, b"\x48\xFF\xFF\xFF\xFF\xFF\x7C"),
    ];
    for (codec, wanted) in rows {
        let mut sink = MemorySink::create(rt.alloc(), 99, 9, &[])?;
        let cells = [sid(codec), Cell::no_data()];
        assert!(rt; cells[0].ft <= 15);
        assert_eq!(rt; write_cells(&cells, &mut sink), Ok(()));
        assert_eq!(rt; sink.octets(), wanted, "of {codec:?}");
    }
    Ok(())
}

#[test]
fn a_writer_is_spent_where_a_write_fails(rt: HostRuntime) -> Result<(), Fail> {
    // The room of the sink, the number of the write that fails, and what was then written of a header and two blocks.
    let rows: [(usize, &[u64], &[u8]); 6] = [
        (8, &[], b"#!AMR\n||"),
        (7, &[], b"#!AMR\n|"),
        (6, &[], b"#!AMR\n"),
        (5, &[], b"#!AMR"),
        (9, &[1], b"#!AMR\n"),
        (9, &[0], b""),
    ];
    for (room, failing, wanted) in rows {
        let mut sink = MemorySink::create(rt.alloc(), room, 9, failing)?;
        let answer = header_and_two(&mut sink);
        assert_eq!(rt; answer.is_ok(), wanted.len() == 8);
        assert_eq!(rt; sink.octets(), wanted, "at room {room}");
    }
    Ok(())
}

fn header_and_two(sink: &mut MemorySink) -> Result<(), Failed> {
    let mut writer = StoreWriter::new(Codec::Amr, 1, sink);
    writer.begin()?;
    writer.put_block(&[Cell::no_data()])?;
    writer.put_block(&[Cell::no_data()])
}
