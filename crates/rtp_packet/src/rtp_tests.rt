use crate::{RtpFields, RtpRefusal, read_rtp, size_rtp, write_rtp};
use std::test::Fail;

#[test]
fn each_rule_of_a_header_is_tested_in_its_order(rt: HostRuntime) -> Result<(), Fail> {
    // The first two octets, the number of octets, of which the rest are 0, and the refusal.
    let rows: [(u8, u8, usize, RtpRefusal); 6] = [
        (0x80, 0x60, 11, RtpRefusal::Short { have: 11 }),
        (0x40, 0x60, 12, RtpRefusal::Version { got: 1 }),
        (0x81, 0x60, 12, RtpRefusal::Sources),
        (0x90, 0x60, 12, RtpRefusal::Extension),
        (0xa0, 0x60, 12, RtpRefusal::Padding),
        (0xa0, 0x60, 13, RtpRefusal::Padding),
    ];
    for (first, second, have, want) in rows {
        let mut octets = [0u8; 13];
        octets[0] = first;
        octets[1] = second;
        let got = read_rtp(&octets[..have.min(13)]).err();
        assert_eq!(rt; got, Some(want), "at {first}, {have}");
    }
    Ok(())
}

#[test]
fn a_packet_with_a_source_an_extension_and_padding(rt: HostRuntime) -> Result<(), Fail> {
    let mut octets = [0u8; 60];
    octets[0] = 0xb1;
    octets[1] = 0x60;
    octets[16] = 0xbe;
    octets[17] = 0xde;
    octets[19] = 1;
    octets[24] = 0xf3;
    octets[25] = 0xc0;
    octets[59] = 4;
    let mut payload = [0u8; 32];
    payload[0] = 0xf3;
    payload[1] = 0xc0;
    let Ok(view) = read_rtp(&octets) else {
        assert!(rt; false);
        return Ok(());
    };
    assert_eq!(rt; view.payload(), payload.as_slice());
    assert_eq!(rt; view.sources(), 1);
    if 0 < view.sources() {
        assert_eq!(rt; view.source(0), 0);
    }
    let Some((bits, words)) = view.extension() else {
        assert!(rt; false);
        return Ok(());
    };
    assert_eq!(rt; bits, 0xbede);
    assert_eq!(rt; words, [0u8; 4].as_slice());
    assert_eq!(rt; view.padding(), 4);
    Ok(())
}

#[test]
fn the_fields_of_the_fixed_header(rt: HostRuntime) -> Result<(), Fail> {
    let octets = [
        0x80, 0xe1, 0x12, 0x34, 0x89, 0xab, 0xcd, 0xef, 0x01, 0x02, 0x03, 0x04, 0x55,
    ];
    let Ok(view) = read_rtp(&octets) else {
        assert!(rt; false);
        return Ok(());
    };
    assert!(rt; view.marker());
    assert_eq!(rt; view.payload_type(), 97);
    assert_eq!(rt; view.sequence(), 0x1234);
    assert_eq!(rt; view.timestamp(), 0x89ab_cdef);
    assert_eq!(rt; view.ssrc(), 0x0102_0304);
    assert_eq!(rt; view.sources(), 0);
    assert!(rt; view.extension().is_none());
    assert_eq!(rt; view.padding(), 0);
    assert_eq!(rt; view.payload(), [0x55u8].as_slice());
    Ok(())
}

#[test]
fn a_written_packet(rt: HostRuntime) -> Result<(), Fail> {
    let fields = RtpFields {
        marker: true,
        payload_type: 97,
        sequence: 0x1234,
        timestamp: 0x89ab_cdef,
        ssrc: 0x0102_0304,
        sources: &[0x0506_0708],
        extension: Some((0xbede, &[9, 10, 11, 12])),
        padding: 3,
    };
    assert_eq!(rt; size_rtp(&fields, 2), 29);
    let mut out = [0xffu8; 29];
    write_rtp(&fields, &[0xf3, 0xc0], &mut out);
    let want = [
        0xb1u8, 0xe1, 0x12, 0x34, 0x89, 0xab, 0xcd, 0xef, 1, 2, 3, 4, 5, 6, 7, 8, 0xbe, 0xde, 0, 1,
        9, 10, 11, 12, 0xf3, 0xc0, 0, 0, 3,
    ];
    assert_eq!(rt; out.as_slice(), want.as_slice());
    Ok(())
}
