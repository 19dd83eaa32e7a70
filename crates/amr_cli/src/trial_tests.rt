use crate::run::run_gateway;
use crate::status::Status;
use crate::test_logs::{Parts, join, words_of};
use crate::tests::expect;
use amr_io::{MemorySink, MemorySource};
use std::alloc::Global;
use std::process::Abort;
use std::test::Fail;

// What a trial puts out, at status 0, and without a note.
fn tried(rt: &(impl Abort + Alloc<A = Global>), line: &str) -> Result<Vec<u8>, Fail> {
    let words = words_of(rt.alloc(), line)?;
    let mut input = MemorySource::create(rt.alloc(), &[1, 2, 3], 1, &[])?;
    let mut output = MemorySink::create(rt.alloc(), 999, 7, &[])?;
    let mut notes = MemorySink::create(rt.alloc(), 9, 9, &[])?;
    let ended = run_gateway(rt.alloc(), &words, &mut input, &mut output, &mut notes);
    assert_eq!(rt; ended, Status::Done, "{line}");
    assert_eq!(rt; notes.octets(), &[][..], "{line}");
    Ok(Vec::from_slice(rt.alloc(), output.octets())?)
}

#[test]
fn a_trial_of_nothing_has_the_sum_of_a_header(rt: HostRuntime) -> Result<(), Fail> {
    // The six octets of the header of AMR in one channel, `#!AMR` and a newline, have the sum 302.
    expect(
        &rt,
        "trial --codec AMR --count 0",
        &[],
        Status::Done,
        &[
            (b"made=0 sent=0 lost=0 doubled=0 held=0\n", 0),
            (
                b"packets=0 null=0 rtp=0 type=0 payload=0 place=0 late=0 copies=0 blocks=0\n",
                0,
            ),
            (b"file=6 sum=302\n", 0),
        ],
        "",
    )
}

// The lines that a model of the generator, the delivery and the file in another language gave.
#[test]
fn a_trial_is_what_its_number_says(rt: HostRuntime) -> Result<(), Fail> {
    let rows = [
        (
            "trial --codec AMR --count 100 --seed 7",
            "made=100 sent=100 lost=7 doubled=3 held=3\n",
            "packets=96 null=0 rtp=0 type=0 payload=0 place=0 late=0 copies=3 blocks=100\n",
            "file=1756 sum=217723\n",
        ),
        (
            "trial --codec AMR-WB --count 50 --channels 6 --repeat 1 --seed 7",
            "made=50 sent=50 lost=5 doubled=2 held=1\n",
            "packets=47 null=0 rtp=0 type=0 payload=0 place=0 late=0 copies=258 blocks=50\n",
            "file=10975 sum=1365222\n",
        ),
        (
            "trial --codec AMR --count 60 --repeat 2 --seed 4294967295",
            "made=60 sent=60 lost=8 doubled=1 held=2\n",
            "packets=53 null=0 rtp=0 type=0 payload=0 place=0 late=0 copies=96 blocks=60\n",
            "file=1101 sum=135376\n",
        ),
    ];
    for (line, made, recorded, file) in rows {
        let parts: Parts<'_> = &[
            (made.as_bytes(), 0),
            (recorded.as_bytes(), 0),
            (file.as_bytes(), 0),
        ];
        let wanted = join(rt.alloc(), parts)?;
        let once = tried(&rt, line)?;
        assert_eq!(rt; once.as_slice(), wanted.as_slice(), "{line}");
    }
    Ok(())
}

#[test]
fn the_same_words_give_the_same_lines(rt: HostRuntime) -> Result<(), Fail> {
    let lines = [
        "trial --codec AMR --count 40 --blocks 3 --skip 1",
        "trial --codec AMR --count 40 --fmtp interleaving=8 --blocks 2 --length 4 --seed 4294967295",
    ];
    for line in lines {
        let once = tried(&rt, line)?;
        let twice = tried(&rt, line)?;
        assert_eq!(rt; once.as_slice(), twice.as_slice(), "{line}");
        assert!(rt; once.starts_with(b"made="), "{line}");
    }
    Ok(())
}
