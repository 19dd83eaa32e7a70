ghost use Rattle.std.specs.Prelude.{IsTrue};

use crate::{LogWriter, PacketSink, log_head};
use amr_io::{Failed, MemorySink};
use std::test::Fail;

// Two packets, one after the other.
fn put_two<P: PacketSink>(sink: &mut P) -> Result<(), Failed>
    requires ready { IsTrue (P.ready sink.old) }
{
    sink.put_packet(&[7, 8, 9])?;
    sink.put_packet(&[5])
}

#[test]
fn the_head_of_a_record_is_its_length(rt: HostRuntime) -> Result<(), Fail> {
    assert_eq!(rt; log_head(0), [0, 0]);
    assert_eq!(rt; log_head(258), [1, 2]);
    assert_eq!(rt; log_head(65_535), [255, 255]);
    Ok(())
}

#[test]
fn packets_stand_behind_their_lengths(rt: HostRuntime) -> Result<(), Fail> {
    let log = [0, 3, 7, 8, 9, 0, 1, 5];
    for cut in 1..=4 {
        let mut sink = MemorySink::create(rt.alloc(), 8, cut, &[])?;
        let mut writer = LogWriter::new(&mut sink);
        assert!(rt; put_two(&mut writer).is_ok(), "cut at {cut}");
        assert_eq!(rt; sink.octets(), log.as_slice(), "cut at {cut}");
    }
    Ok(())
}

#[test]
fn a_front_of_the_log_is_written_where_there_is_no_room(rt: HostRuntime) -> Result<(), Fail> {
    let log = [0, 3, 7, 8, 9, 0, 1, 5];
    for room in 0..8 {
        let mut sink = MemorySink::create(rt.alloc(), room, 2, &[])?;
        let mut writer = LogWriter::new(&mut sink);
        assert!(rt; put_two(&mut writer).is_err(), "room for {room}");
        assert_eq!(rt; sink.octets(), &log[..room], "room for {room}");
    }
    Ok(())
}
