use crate::{CountLines, Counts, RunEnd, RunReport, write_notes, write_usage};
use amr_io::{Failed, MemorySink};
use arrayvec::ArrayVec;
use refusals::{FmtpRefusal, OfferRefusal, Param, RefusedType, StoreRefusal, Why};
use std::test::Fail;

const ZEROS: &[u8] = b"packets=0 null=0 rtp=0 type=0 payload=0 place=0 late=0 copies=0 blocks=0\n";

#[test]
fn counts_stand_behind_their_names(rt: HostRuntime) -> Result<(), Fail> {
    let each = Counts {
        packets: 123,
        null: 1,
        rtp: 20,
        other_type: 3,
        payload: 45,
        place: 6,
        late: 78,
        copies: 9,
        blocks: 1000,
        sent: 7,
        refused: ArrayVec::new(),
    };
    let most = 18_446_744_073_709_551_615;
    let full = Counts {
        packets: most,
        null: most,
        rtp: most,
        other_type: most,
        payload: most,
        place: most,
        late: most,
        copies: most,
        blocks: most,
        sent: most,
        refused: ArrayVec::new(),
    };
    let rows: [(Counts, &[u8]); 3] = [
        (Counts::none(), ZEROS),
        (
            each,
            b"packets=123 null=1 rtp=20 type=3 payload=45 place=6 late=78 copies=9 blocks=1000\n",
        ),
        (
            full,
            b"packets=18446744073709551615 null=18446744073709551615 rtp=18446744073709551615 type=18446744073709551615 payload=18446744073709551615 place=18446744073709551615 late=18446744073709551615 copies=18446744073709551615 blocks=18446744073709551615\n",
        ),
    ];
    for (counts, text) in rows {
        let mut notes = MemorySink::create(rt.alloc(), 999, 999, &[])?;
        let report = RunReport {
            end: RunEnd::Done,
            counts,
        };
        assert_eq!(rt;
            write_notes(&mut notes, CountLines::Recording, &report),
            Ok(())
        );
        assert_eq!(rt; notes.octets(), text);
    }
    Ok(())
}

#[test]
fn each_command_has_its_lines(rt: HostRuntime) -> Result<(), Fail> {
    let mut counts = Counts {
        blocks: 18_446_744_073_709_551_615,
        sent: 50,
        ..Counts::none()
    };
    let of = |why| RefusedType { pt: 97, why };
    let types = [
        of(Why::Codec),
        of(Why::Channels),
        of(Why::Crc),
        of(Why::Sorting),
        of(Why::Interleaving),
        of(Why::Modes),
    ];
    assert!(rt; counts.refused.try_extend_from_slice(&types).is_ok());
    let report = RunReport {
        end: RunEnd::NoAnswer,
        counts,
    };
    let rows: [(CountLines, &[u8]); 4] = [
        (CountLines::None, b"no answer\n"),
        (
            CountLines::Sending,
            b"blocks=18446744073709551615 packets=50\nno answer\n",
        ),
        (
            CountLines::Converting,
            b"packets=0 null=0 rtp=0 type=0 payload=0 place=0 late=0 copies=0 blocks=18446744073709551615\nblocks=18446744073709551615 packets=50\nno answer\n",
        ),
        (
            CountLines::Answering,
            b"type=97 refused=codec\ntype=97 refused=channels\ntype=97 refused=crc\ntype=97 refused=sorting\ntype=97 refused=interleaving\ntype=97 refused=modes\nno answer\n",
        ),
    ];
    for (lines, text) in rows {
        let mut notes = MemorySink::create(rt.alloc(), 999, 40, &[])?;
        assert_eq!(rt; write_notes(&mut notes, lines, &report), Ok(()));
        assert_eq!(rt; notes.octets(), text);
    }
    Ok(())
}

#[test]
fn each_end_has_its_line(rt: HostRuntime) -> Result<(), Fail> {
    let place = 18_446_744_073_709_551_615;
    let fmtp = |refusal| RunEnd::Sdp(OfferRefusal::Parameters { pt: 98, refusal });
    let rows: [(RunEnd, &[u8], &[u8]); 19] = [
        (RunEnd::Done, ZEROS, b""),
        (RunEnd::LogCut { have: 1 }, ZEROS, b"truncated have=1\n"),
        (
            RunEnd::LogCut { have: 65_536 },
            ZEROS,
            b"truncated have=65536\n",
        ),
        (RunEnd::ReadFault, b"", b"read fault\n"),
        (RunEnd::WriteFault, b"", b"write fault\n"),
        (RunEnd::OutOfMemory, b"", b"out of memory\n"),
        (RunEnd::LimitReached, ZEROS, b"limit reached\n"),
        (RunEnd::NoAnswer, ZEROS, b"no answer\n"),
        (RunEnd::File(StoreRefusal::Magic), ZEROS, b"refused=T1\n"),
        (
            RunEnd::File(StoreRefusal::Channels { chan: 2 }),
            ZEROS,
            b"refused=T2 chan=2\n",
        ),
        (
            RunEnd::File(StoreRefusal::Reserved { place: 6, ft: 9 }),
            ZEROS,
            b"refused=T3 place=6 ft=9\n",
        ),
        (
            RunEnd::File(StoreRefusal::Truncated { place }),
            ZEROS,
            b"refused=T4 place=18446744073709551615\n",
        ),
        (
            RunEnd::File(StoreRefusal::BlockRest { place: 16 }),
            ZEROS,
            b"refused=T5 place=16\n",
        ),
        (fmtp(FmtpRefusal::NoName), ZEROS, b"refused=F1 pt=98\n"),
        (
            fmtp(FmtpRefusal::BadValue {
                param: Param::ModeSet,
            }),
            ZEROS,
            b"refused=F2 pt=98 param=mode-set\n",
        ),
        (
            fmtp(FmtpRefusal::Repeated {
                param: Param::Capability,
            }),
            ZEROS,
            b"refused=F3 pt=98 param=mode-change-capability\n",
        ),
        (
            fmtp(FmtpRefusal::Contradiction),
            ZEROS,
            b"refused=F4 pt=98\n",
        ),
        (RunEnd::Sdp(OfferRefusal::NoAudio), ZEROS, b"refused=F5\n"),
        (
            RunEnd::Sdp(OfferRefusal::BadMap { line: 9 }),
            ZEROS,
            b"refused=F6 line=9\n",
        ),
    ];
    for (end, told, line) in rows {
        let report = RunReport {
            end,
            counts: Counts::none(),
        };
        let mut notes = MemorySink::create(rt.alloc(), 999, 40, &[])?;
        assert_eq!(rt;
            write_notes(&mut notes, CountLines::None, &report),
            Ok(()),
            "at {end:?}"
        );
        assert_eq!(rt; notes.octets(), line, "at {end:?}");
        let mut both = MemorySink::create(rt.alloc(), 999, 40, &[])?;
        assert_eq!(rt;
            write_notes(&mut both, CountLines::Recording, &report),
            Ok(()),
            "at {end:?}"
        );
        let cut = told.len().min(both.octets().len());
        assert_eq!(rt; &both.octets()[..cut], told, "at {end:?}");
        assert_eq!(rt; &both.octets()[cut..], line, "at {end:?}");
    }
    Ok(())
}

#[test]
fn words_that_give_no_job_have_their_line(rt: HostRuntime) -> Result<(), Fail> {
    let mut notes = MemorySink::create(rt.alloc(), 999, 7, &[])?;
    assert_eq!(rt; write_usage(&mut notes), Ok(()));
    assert_eq!(rt;
        notes.octets(),
        b"usage: record, stream, convert, list, answer or trial, then pairs of an option and its value\n".as_slice()
    );
    Ok(())
}

#[test]
fn a_fault_leaves_a_front_of_the_notes(rt: HostRuntime) -> Result<(), Fail> {
    let cut_log = RunEnd::LogCut { have: 1 };
    // The room, the cut, the calls that fail, the lines, the end, the answer and what was got.
    let rows: [(
        usize,
        usize,
        &[u64],
        CountLines,
        RunEnd,
        Result<(), Failed>,
        &[u8],
    ); 8] = [
        (
            9,
            4,
            &[],
            CountLines::Recording,
            cut_log,
            Err(Failed),
            b"packets=0",
        ),
        (
            77,
            99,
            &[],
            CountLines::Recording,
            cut_log,
            Err(Failed),
            b"packets=0 null=0 rtp=0 type=0 payload=0 place=0 late=0 copies=0 blocks=0\ntrun",
        ),
        (
            99,
            99,
            &[0],
            CountLines::Recording,
            cut_log,
            Err(Failed),
            b"",
        ),
        (
            99,
            99,
            &[1],
            CountLines::Recording,
            cut_log,
            Err(Failed),
            ZEROS,
        ),
        // A failing call is made only where a line is left to write.
        (
            99,
            99,
            &[1],
            CountLines::Recording,
            RunEnd::Done,
            Ok(()),
            ZEROS,
        ),
        (99, 99, &[0], CountLines::None, RunEnd::Done, Ok(()), b""),
        (
            99,
            99,
            &[1],
            CountLines::None,
            cut_log,
            Ok(()),
            b"truncated have=1\n",
        ),
        (
            99,
            5,
            &[2],
            CountLines::Recording,
            RunEnd::WriteFault,
            Err(Failed),
            b"write faul",
        ),
    ];
    for (room, cut, failing, lines, end, answer, text) in rows {
        let mut notes = MemorySink::create(rt.alloc(), room, cut.max(1), failing)?;
        let report = RunReport {
            end,
            counts: Counts::none(),
        };
        assert_eq!(rt;
            write_notes(&mut notes, lines, &report),
            answer,
            "at room {room}"
        );
        assert_eq!(rt; notes.octets(), text, "at room {room}");
    }
    Ok(())
}
